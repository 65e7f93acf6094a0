//! A store that texts are added to. A line `java TEXT` or `properties TEXT` adds one, and tells how many there are; `has java TEXT` or
//! `has properties TEXT` tells whether it is there, and whether it has data; `bytes` tells the bytes.
use crate::marks::{kind_of, text_of, word_of};
use crate::tell::{Tell, tell_all};
use dumb_mode::FileKind;
use ide_text::Text;
use index_store::Store;
use std::alloc::{AllocError, Global};

/// Does the lines from the empty store on.
pub fn play(alloc: Global, lines: &str, out: &mut String) -> Result<(), AllocError> {
    let mut store = Store::empty(alloc);
    tell_all(alloc, &mut store, lines, out)
}

impl Tell for Store {
    fn tell(&mut self, alloc: Global, line: &str, out: &mut String) -> Result<(), AllocError> {
        match word_of(line) {
            ("bytes", _) => push_bytes(alloc, self, out),
            ("has", asked) => push_has(alloc, self, asked, out),
            (word, text) => add(alloc, self, kind_of(word), &text_of(alloc, text)?, out),
        }
    }
}

/// Adds the bytes.
fn push_bytes(alloc: Global, store: &Store, out: &mut String) -> Result<(), AllocError> {
    let bytes = store.bytes()?;
    out.push(' ')?;
    out.push_str(hex::encode(alloc, &bytes)?.as_str())
}

/// Adds whether a text of a kind is there, and whether it has data.
fn push_has(alloc: Global, store: &Store, asked: &str, out: &mut String) -> Result<(), AllocError> {
    let (kind, text) = word_of(asked);
    let text = text_of(alloc, text)?;
    let is_there = store.has(kind_of(kind), &text)?;
    let has_data = store.data_for(kind_of(kind), &text)?.is_some();
    write!(out, " {is_there} {has_data}")
}

/// Adds a text to a store, and tells how many there are. A full store counts as running out of memory.
fn add(
    alloc: Global,
    store: &mut Store,
    kind: FileKind,
    text: &Text,
    out: &mut String,
) -> Result<(), AllocError> {
    if store.len() == u32::MAX {
        return Err(AllocError);
    }
    store.add(kind, text)?;
    write!(out, " {}", store.len())
}
