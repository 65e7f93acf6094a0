//! What is told of bytes where a store is read from them. The first line has the bytes. `whole` tells of them as they are; `cut` of
//! the first of them, 0, 1 and so on, but not all; `xor MASK` of them with these bits changed in one byte, in each in turn; `why`
//! tells the refusal's own words.
//!
//! What is told is `kept` where the store has the same bytes again, `other` where it has others, `version-FOUND@AT`, `bad@AT`, or
//! `data@ENTRY`.
use crate::marks::{bytes_of, flip, word_of};
use crate::tell::{Tell, tell_all};
use index_store::{Store, StoreRefusal};
use std::alloc::{AllocError, Global};

/// Bytes from which a store is read.
#[derive(Drop)]
struct Damaged {
    bytes: Vec<u8>,
}

/// Tells of the bytes of the first line what each other one asks for.
pub fn play(alloc: Global, lines: &str, out: &mut String) -> Result<(), AllocError> {
    let (first, rest) = lines.split_once("\n").unwrap_or((lines, ""));
    let mut damaged = Damaged {
        bytes: bytes_of(alloc, first)?,
    };
    tell_all(alloc, &mut damaged, rest, out)
}

impl Tell for Damaged {
    fn tell(&mut self, alloc: Global, line: &str, out: &mut String) -> Result<(), AllocError> {
        match word_of(line) {
            ("whole", _) => tell_bytes(alloc, &self.bytes, out),
            ("cut", _) => tell_cuts(alloc, &self.bytes, out),
            ("why", _) => tell_reason(alloc, &self.bytes, out),
            (_, mask) => tell_changes(alloc, &mut self.bytes, mask.parse::<u8>().unwrap_or(0), out),
        }
    }
}

/// Tells of the first bytes, for each number of them but all.
fn tell_cuts(alloc: Global, bytes: &[u8], out: &mut String) -> Result<(), AllocError> {
    for count in 0..bytes.len() {
        let (front, _) = bytes.split_at(count);
        tell_bytes(alloc, front, out)?;
    }
    Ok(())
}

/// Tells of the bytes where the bits of a mask are changed in one, for each of them.
fn tell_changes(
    alloc: Global,
    bytes: &mut [u8],
    mask: u8,
    out: &mut String,
) -> Result<(), AllocError> {
    for at in 0..bytes.len() {
        flip(bytes, at, mask);
        tell_bytes(alloc, bytes, out)?;
        flip(bytes, at, mask);
    }
    Ok(())
}

/// Tells of bytes.
fn tell_bytes(alloc: Global, bytes: &[u8], out: &mut String) -> Result<(), AllocError> {
    match Store::read(alloc, bytes) {
        Ok(store) => tell_store(&store, bytes, out),
        Err(refusal) => tell_refusal(&refusal, out),
    }
}

/// Tells whether a store has these bytes.
fn tell_store(store: &Store, bytes: &[u8], out: &mut String) -> Result<(), AllocError> {
    let is_kept = store.bytes()?.as_slice() == bytes;
    out.push_str(if is_kept { " kept" } else { " other" })
}

/// Tells a refusal with its place.
fn tell_refusal(refusal: &StoreRefusal, out: &mut String) -> Result<(), AllocError> {
    match refusal {
        StoreRefusal::OtherVersion { at, found } => write!(out, " version-{found}@{at}"),
        StoreRefusal::BadStore { at } => write!(out, " bad@{at}"),
        StoreRefusal::WrongData { entry } => write!(out, " data@{entry}"),
        StoreRefusal::OutOfMemory => Err(AllocError),
    }
}

/// Tells why bytes are refused, in the refusal's words.
fn tell_reason(alloc: Global, bytes: &[u8], out: &mut String) -> Result<(), AllocError> {
    match Store::read(alloc, bytes) {
        Ok(_) => out.push_str(" for no reason"),
        Err(refusal) => write!(out, " {refusal}"),
    }
}
