//! What is shown of a run.
use crate::case::Case;
use crate::running::Ended;
use std::io;

/// Prints how a case ended: its title, the number and how many bytes were written, the line of standard error, and what
/// was written.
pub fn print<R: AllocGlobal + Print>(rt: &R, case: &Case, ended: &Ended) -> io::Result<()> {
    let title = case.title.as_str();
    let status = ended.status;
    let written = ended.written.bytes();
    let count = written.len();
    println!(rt; "{title}")?;
    println!(rt; "status {status}, {count} bytes")?;
    print_lines(rt, text_of(ended.error.bytes()))?;
    print_written(rt, case, written)
}

/// Prints what was written, as the case asks.
fn print_written<R: AllocGlobal + Print>(rt: &R, case: &Case, written: &[u8]) -> io::Result<()> {
    if case.shows_hex {
        return print_hex(rt, written);
    }
    if case.shows_ends {
        return print_ends(rt, text_of(written));
    }
    print_lines(rt, text_of(written))
}

/// Prints bytes in hex digits, all on one line.
fn print_hex<R: AllocGlobal + Print>(rt: &R, written: &[u8]) -> io::Result<()> {
    let digits = hex::encode(rt.alloc(), written)?;
    println!(rt; "{digits}")
}

/// Prints each line.
fn print_lines<R: Print>(rt: &R, text: &str) -> io::Result<()> {
    for line in text.lines() {
        println!(rt; "{line}")?;
    }
    Ok(())
}

/// Prints the first and the last line.
fn print_ends<R: Print>(rt: &R, written: &str) -> io::Result<()> {
    let mut lines = written.lines();
    if let Some(first) = lines.next() {
        println!(rt; "{first}")?;
    }
    if let Some(last) = lines.last() {
        println!(rt; "{last}")?;
    }
    Ok(())
}

/// Bytes as a text, or a word that tells that they are none.
fn text_of(bytes: &[u8]) -> &str {
    match str::from_utf8(bytes) {
        Ok(text) => text,
        Err(_) => "no text",
    }
}
