//! The bytes of lists of declarations: each line has the bytes of one, or `damaged` and these. Of bytes it is told whether they are
//! those of the list that they spell (`kept`), or the place of the first fault; of damaged ones with 255 at each place in turn.
use crate::marks::{bytes_of, flip, word_of};
use std::alloc::{AllocError, Global};
use stub_codec::{StubRefusal, decode, encode};

/// Tells what bytes are.
pub fn tell(alloc: Global, line: &str, out: &mut String) -> Result<(), AllocError> {
    match word_of(line) {
        ("damaged", bytes) => tell_damaged(alloc, &mut bytes_of(alloc, bytes)?, out),
        _ => tell_bytes(alloc, &bytes_of(alloc, line)?, out),
    }
}

/// Tells of the bytes with 255 at each place.
fn tell_damaged(alloc: Global, bytes: &mut [u8], out: &mut String) -> Result<(), AllocError> {
    for at in 0..bytes.len() {
        let mask = 255 ^ bytes[at];
        flip(bytes, at, mask);
        tell_bytes(alloc, bytes, out)?;
        flip(bytes, at, mask);
    }
    Ok(())
}

/// Tells of bytes.
fn tell_bytes(alloc: Global, bytes: &[u8], out: &mut String) -> Result<(), AllocError> {
    match decode(alloc, bytes) {
        Ok(list) => {
            let is_kept = encode(alloc, &list)?.as_slice() == bytes;
            out.push_str(if is_kept { " kept" } else { " other" })
        }
        Err(StubRefusal::BadStub { at }) => write!(out, " {at}"),
        Err(StubRefusal::OutOfMemory) => Err(AllocError),
    }
}
