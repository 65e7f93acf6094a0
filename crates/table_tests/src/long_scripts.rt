//! Scripts that are too long to be written out, and the text of refusals. `text COUNT END` is a line that creates a file with so many
//! characters and what ends them, `lines COUNT` so many empty lines and a bad one; `refusal COUNT` is the refusal of that line, and
//! `refusal memory` the other one.
use crate::marks::{number_of, word_of};
use crate::printed::push_script;
use script_lang::ScriptRefusal;
use std::alloc::{AllocError, Global};

/// Tells what becomes of them.
pub fn tell(alloc: Global, line: &str, out: &mut String) -> Result<(), AllocError> {
    match word_of(line) {
        ("text", rest) => push_script(alloc, &long_line(alloc, rest)?, out),
        ("lines", count) => push_script(alloc, &many_lines(alloc, number_of(count))?, out),
        (_, number) => write!(out, " {}", refusal_of(number)),
    }
}

/// A line that creates a file with so many characters, and what ends them.
fn long_line(alloc: Global, rest: &str) -> Result<Vec<u8>, AllocError> {
    let (count, end) = word_of(rest);
    let mut bytes = b"create A \"".to_vec(alloc)?;
    for _ in 0..number_of(count) {
        bytes.push(b'x')?;
    }
    bytes.extend_from_slice(end.as_bytes())?;
    bytes.push(b'"')?;
    Ok(bytes)
}

/// So many empty lines, and a bad one.
fn many_lines(alloc: Global, count: u32) -> Result<Vec<u8>, AllocError> {
    let mut bytes = vec![in alloc; b'\n'; count as usize]?;
    bytes.push(b'x')?;
    Ok(bytes)
}

/// The refusal of the line with a number, or want of memory where none is given.
fn refusal_of(number: &str) -> ScriptRefusal {
    match number_of(number) {
        0 => ScriptRefusal::OutOfMemory,
        number => ScriptRefusal::BadLine { number },
    }
}
