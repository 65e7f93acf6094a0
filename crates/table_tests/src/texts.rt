//! Texts. A line of `texts` has bytes in hex digits, of which it is told which characters the text of them has, and its copy, or the
//! refusal; a line of `places` has such bytes too, and is told the line and the column of each offset. A line `COUNT HEX` of
//! `long texts` stands for so many letters and these bytes behind them, of which it is told how long the text is, or the refusal;
//! `most` tells how long a text may be, and `memory` the last refusal.
use crate::marks::{bytes_of, mark, number_of, word_of};
use ide_text::{MAX_CHARS, Text, TextRefusal};
use std::alloc::{AllocError, Global};

/// Tells what texts hold.
pub fn tell(alloc: Global, line: &str, out: &mut String) -> Result<(), AllocError> {
    match Text::from_utf8(alloc, &bytes_of(alloc, line)?) {
        Ok(text) => {
            push_text(out, &text)?;
            push_text(out, &text.copy()?)
        }
        Err(refusal) => write!(out, " {refusal}"),
    }
}

/// Tells where things stand in texts.
pub fn tell_places(alloc: Global, line: &str, out: &mut String) -> Result<(), AllocError> {
    match Text::from_utf8(alloc, &bytes_of(alloc, line)?) {
        Ok(text) => push_places(out, &text),
        Err(refusal) => write!(out, " {refusal}"),
    }
}

/// Tells how long texts are.
pub fn tell_long(alloc: Global, line: &str, out: &mut String) -> Result<(), AllocError> {
    match word_of(line) {
        ("most", _) => write!(out, " {MAX_CHARS}"),
        ("memory", _) => write!(out, " {}", TextRefusal::OutOfMemory),
        (count, end) => match long_text(alloc, number_of(count), &bytes_of(alloc, end)?)? {
            Ok(text) => write!(out, " {}", text.len()),
            Err(refusal) => write!(out, " {refusal}"),
        },
    }
}

/// A text of so many letters and what ends them, or why it is refused.
fn long_text(
    alloc: Global,
    letters: u32,
    end: &[u8],
) -> Result<Result<Text, TextRefusal>, AllocError> {
    let mut bytes = vec![in alloc; b'x'; letters as usize]?;
    bytes.extend_from_slice(end)?;
    Ok(Text::from_utf8(alloc, &bytes))
}

/// Adds the characters of a text in brackets.
pub fn push_text(out: &mut String, text: &Text) -> Result<(), AllocError> {
    out.push_str(if text.is_empty() { " empty <" } else { " <" })?;
    for at in 0..text.len() {
        out.push(mark(text.char_at(at)))?;
    }
    out.push('>')
}

/// Adds the line and the column of each offset.
fn push_places(out: &mut String, text: &Text) -> Result<(), AllocError> {
    for at in 0..text.len() + 1 {
        let (line, column) = text.line_col(at);
        write!(out, " {line}:{column}")?;
    }
    Ok(())
}
