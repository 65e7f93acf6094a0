//! Documents: `open ID TEXT`, `put ID AT TEXT`, `cut ID FROM TO`, `save ID`, `commit ID`, `replace ID TEXT` and `close ID`, behind each of
//! which it is told what the document is, or that the call can't be made. `copy` makes a copy, of which `copied ID` tells what a document
//! is; `counts` tells how many are open, and how many in the copy.
use crate::edits::{close, commit, cut, open, put, replace, save};
use crate::marks::{number_of, text_of, word_of};
use crate::tell::{Tell, tell_all};
use crate::texts::push_text;
use document_buf::{Doc, Docs};
use std::alloc::{AllocError, Global};

/// Documents, and the copy that was made of them last.
#[derive(Drop)]
struct Copied {
    docs: Docs,
    copy: Docs,
}

/// Does the lines from no documents on.
pub fn play(alloc: Global, lines: &str, out: &mut String) -> Result<(), AllocError> {
    let mut copied = Copied {
        docs: Docs::new(alloc),
        copy: Docs::new(alloc),
    };
    tell_all(alloc, &mut copied, lines, out)
}

impl Tell for Copied {
    fn tell(&mut self, alloc: Global, line: &str, out: &mut String) -> Result<(), AllocError> {
        match word_of(line) {
            ("copy", _) => make_copy(self),
            ("copied", id) => push_doc(out, &self.copy, number_of(id)),
            ("counts", _) => push_counts(out, &self.docs, &self.copy),
            (word, rest) => tell_call(alloc, &mut self.docs, word, rest, out),
        }
    }
}

/// Makes a copy.
fn make_copy(copied: &mut Copied) -> Result<(), AllocError> {
    copied.copy = copied.docs.copy()?;
    Ok(())
}

/// Adds how many documents are open.
fn push_counts(out: &mut String, docs: &Docs, copy: &Docs) -> Result<(), AllocError> {
    let (open, copied) = (docs.open_count(), copy.open_count());
    write!(out, " {open} open, {copied} in the copy")
}

/// Makes a call, and tells what the document is then, or that it can't be made.
fn tell_call(
    alloc: Global,
    docs: &mut Docs,
    word: &str,
    rest: &str,
    out: &mut String,
) -> Result<(), AllocError> {
    let (id, rest) = word_of(rest);
    let id = number_of(id);
    if call(alloc, docs, word, id, rest)? {
        push_doc(out, docs, id)
    } else {
        out.push_str(" can't be done")
    }
}

/// Makes a call, and tells whether it could be made.
fn call(
    alloc: Global,
    docs: &mut Docs,
    word: &str,
    id: u32,
    rest: &str,
) -> Result<bool, AllocError> {
    let (first, second) = word_of(rest);
    let at = number_of(first);
    match word {
        "open" => open(docs, alloc, id, text_of(alloc, rest)?),
        "put" => put(docs, id, at, &text_of(alloc, second)?),
        "cut" => Ok(cut(docs, id, at, number_of(second))),
        "save" => Ok(save(docs, id)),
        "commit" => commit(docs, alloc, id),
        "replace" => replace(docs, alloc, id, text_of(alloc, rest)?),
        _ => Ok(close(docs, id)),
    }
}

/// Adds what the document with an id is.
fn push_doc(out: &mut String, docs: &Docs, id: u32) -> Result<(), AllocError> {
    match docs.get(id) {
        Some(doc) => push_open(out, doc),
        None => out.push_str(" closed"),
    }
}

/// Adds the text of a document, the committed one, and its marks.
fn push_open(out: &mut String, doc: &Doc) -> Result<(), AllocError> {
    push_text(out, &doc.text()?)?;
    push_text(out, doc.committed().as_text())?;
    out.push_str(if doc.saved() { " saved" } else { "" })?;
    out.push_str(if doc.is_committed() { " committed" } else { "" })
}
