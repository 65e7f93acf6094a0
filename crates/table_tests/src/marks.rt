//! Texts, numbers, kinds and bytes as they are written on one line.
use dumb_mode::FileKind;
use ide_text::Text;
use std::alloc::{AllocError, Global};

/// The text that is written on one line: `|` is a line feed, `>` a tab, and `~` a form feed.
pub fn text_of(alloc: Global, line: &str) -> Result<Text, AllocError> {
    spelled(alloc, line, '>')
}

/// A Java text that is written on one line: the same, but that `^` is a tab.
pub fn java_of(alloc: Global, line: &str) -> Result<Text, AllocError> {
    spelled(alloc, line, '^')
}

/// The text of a line in which this is a tab. One that is too long counts as running out of memory.
fn spelled(alloc: Global, line: &str, tab: char) -> Result<Text, AllocError> {
    let mut text = String::new(alloc);
    for c in line.chars() {
        text.push(match c {
            '|' => '\n',
            '~' => '\u{c}',
            _ if c == tab => '\t',
            _ => c,
        })?;
    }
    match Text::from_utf8(alloc, text.as_bytes()) {
        Ok(text) => Ok(text),
        Err(_) => Err(AllocError),
    }
}

/// A text on one line.
pub fn push_marked(out: &mut String, text: &str) -> Result<(), AllocError> {
    for c in text.chars() {
        out.push(mark(c))?;
    }
    Ok(())
}

/// The mark of a character: its own for what a line can't show, and else the character itself. A carriage return's is `^`.
pub fn mark(c: char) -> char {
    match c {
        '\n' => '|',
        '\r' => '^',
        '\t' => '>',
        '\u{c}' => '~',
        _ => c,
    }
}

/// The bytes that words of hex digits spell, one behind the other. A word that spells none is passed by.
pub fn bytes_of(alloc: Global, words: &str) -> Result<Vec<u8>, AllocError> {
    let mut bytes = Vec::new(alloc);
    for word in words.split(" ") {
        if let Ok(more) = hex::decode(alloc, word) {
            bytes.extend_from_slice(&more)?;
        }
    }
    Ok(bytes)
}

/// Changes the bits of a mask in one of the bytes.
pub fn flip(bytes: &mut [u8], at: usize, mask: u8) {
    if let Some(byte) = bytes.get_mut(at) {
        *byte ^= mask;
    }
}

/// The number that digits spell, or 0.
pub fn number_of(digits: &str) -> u32 {
    digits.parse::<u32>().unwrap_or(0)
}

/// Java, where a word begins so, else properties.
pub fn kind_of(word: &str) -> FileKind {
    if word.starts_with("java") {
        FileKind::Java
    } else {
        FileKind::Properties
    }
}

/// A word, and what stands behind the space after it.
pub fn word_of(line: &str) -> (&str, &str) {
    line.split_once(" ").unwrap_or((line, ""))
}
