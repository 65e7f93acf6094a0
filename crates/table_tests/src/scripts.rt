//! Scripts, each on one line, of which it is told what their sections hold, or the first bad line: `|` is a line feed, `^` a carriage
//! return, `>` a tab, `~` a byte that no UTF-8 has, and `%` one that begins a sequence.
use crate::printed::push_script;
use std::alloc::{AllocError, Global};

/// Tells what scripts hold.
pub fn tell(alloc: Global, line: &str, out: &mut String) -> Result<(), AllocError> {
    push_script(alloc, &script_of(alloc, line)?, out)
}

/// The bytes of a script that is written on one line.
fn script_of(alloc: Global, line: &str) -> Result<Vec<u8>, AllocError> {
    let mut bytes = Vec::new(alloc);
    for b in line.bytes() {
        bytes.push(match b {
            b'|' => b'\n',
            b'^' => b'\r',
            b'>' => b'\t',
            b'~' => 0xff,
            b'%' => 0xc3,
            _ => b,
        })?;
    }
    Ok(bytes)
}
