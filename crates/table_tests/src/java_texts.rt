//! Java texts. Of a line of `tokens` it is told each token by kind, place and length, and behind a bar each word with its mask, where it
//! is found by its name; of one of `many words`, a number, how many words a text with so many names in code and in comments, and as many in
//! comments alone, has, and whether their masks say so. A line of `words` is told whether it is a word, and an identifier; a line
//! `NAME@TEXT` of `uses` the offsets at which the name stands as an identifier.
use crate::marks::{java_of, number_of};
use ide_text::{Name, Text};
use java_tokens::{Token, WordList, is_identifier, is_word, places, tokens, words};
use std::alloc::{AllocError, Global};

/// Tells tokens, and the words of them.
pub fn tell_tokens(alloc: Global, line: &str, out: &mut String) -> Result<(), AllocError> {
    let text = java_of(alloc, line)?;
    let cut = tokens(alloc, &text)?;
    push_tokens(out, &cut)?;
    out.push_str(" |")?;
    push_words(out, &words(alloc, &text, &cut)?.copy()?)
}

/// Tells of a text with many words.
pub fn tell_many(alloc: Global, line: &str, out: &mut String) -> Result<(), AllocError> {
    let text = many_words(alloc, number_of(line))?;
    let list = words(alloc, &text, &tokens(alloc, &text)?)?;
    write!(out, " {}", list.len())?;
    out.push_str(if are_masked(&list) {
        " as they stand"
    } else {
        ""
    })
}

/// Tells what is a word.
pub fn tell_word(line: &str, out: &mut String) -> Result<(), AllocError> {
    out.push_str(if is_word(line) { " word" } else { "" })?;
    out.push_str(if is_identifier(line) {
        " identifier"
    } else {
        ""
    })
}

/// Tells where names stand.
pub fn tell_uses(alloc: Global, line: &str, out: &mut String) -> Result<(), AllocError> {
    let (name, text) = line.split_once("@").unwrap_or((line, ""));
    let text = java_of(alloc, text)?;
    for at in &places(alloc, &text, &Name::of(alloc, name)?)? {
        write!(out, " {at}")?;
    }
    Ok(())
}

/// Adds tokens.
fn push_tokens(out: &mut String, cut: &[Token]) -> Result<(), AllocError> {
    for token in cut {
        let (kind, at, len) = (token.kind(), token.at(), token.len());
        write!(out, " {kind} {at} {len};")?;
    }
    Ok(())
}

/// Adds words, each found by its name.
fn push_words(out: &mut String, list: &WordList) -> Result<(), AllocError> {
    for (name, mask) in list.as_slice() {
        if list.mask_of(name) == Some(*mask) && !list.is_empty() {
            write!(out, " {name} {mask},")?;
        }
    }
    Ok(())
}

/// A text with so many names in code and in comments, and as many in comments alone: for a thousand in all the table in which they are
/// found grows several times.
fn many_words(alloc: Global, count: u32) -> Result<Text, AllocError> {
    let mut made = String::new(alloc);
    for n in 0..count {
        write!(made, "w{n} /* w{n} v{n} */ ")?;
    }
    java_of(alloc, made.as_str())
}

/// Whether the words with a `w` stand in code and in comments, and the others in comments alone.
fn are_masked(list: &WordList) -> bool {
    for (name, mask) in list.as_slice() {
        let wanted = if name.as_str().starts_with('w') { 3 } else { 2 };
        if *mask != wanted {
            return false;
        }
    }
    true
}
