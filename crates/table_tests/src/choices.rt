//! Two inserts of a character and an erase, done to a document, to a text and to a plain list, for all choices of places. A line has a
//! text of 5 characters and the character that goes in; of it is told how many choices, from the first on, leave the same in all three.
ghost use Rattle.std.specs.Prelude.{◌≤◌, length};

use crate::edits::{cut, open, put};
use crate::marks::{text_of, word_of};
use document_buf::Docs;
use ide_text::Text;
use std::alloc::{AllocError, Global};

/// Tells of all choices.
pub fn tell(alloc: Global, line: &str, out: &mut String) -> Result<(), AllocError> {
    let (content, piece) = word_of(line);
    let right = first_wrong(alloc, &text_of(alloc, content)?, &text_of(alloc, piece)?)?;
    write!(out, " {right}")
}

/// What is done: where the two characters go in, and between which places characters go out.
#[derive(Clone, Copy)]
struct Choice {
    first: u32,
    second: u32,
    from: u32,
    to: u32,
}

/// The three places of a choice, each from 0 to 5: two for the characters, and the range of the last two.
fn choice_of(number: u32) -> Choice {
    let (first, second, third) = (number / 36 % 6, number / 6 % 6, number % 6);
    Choice {
        first,
        second,
        from: second.min(third),
        to: second.max(third),
    }
}

/// The first choice, of 216, after which a document or a text has other characters than the list; 216 if there is none.
fn first_wrong(alloc: Global, content: &Text, piece: &Text) -> Result<u32, AllocError> {
    let chars = chars_of(alloc, content)?;
    if piece.is_empty() {
        return Ok(0);
    }
    for number in 0..216 {
        let choice = choice_of(number);
        let wanted = list_after(alloc, &chars, piece.char_at(0), choice)?;
        if !are_same(alloc, content, piece, choice, &wanted)? {
            return Ok(number);
        }
    }
    Ok(216)
}

/// The characters of a text.
fn chars_of(alloc: Global, text: &Text) -> Result<Vec<char>, AllocError> {
    let mut chars = Vec::new(alloc);
    for at in 0..text.len() {
        chars.push(text.char_at(at))?;
    }
    Ok(chars)
}

/// Whether a document and a text have these characters after the edits of a choice.
fn are_same(
    alloc: Global,
    text: &Text,
    added: &Text,
    choice: Choice,
    wanted: &[char],
) -> Result<bool, AllocError> {
    Ok(
        is_list(&document_after(alloc, text, added, choice)?, wanted)
            && is_list(&text_after(text, added, choice)?, wanted),
    )
}

/// Puts a character in at a place, where that doesn't stand past the end.
fn add(list: &mut Vec<char>, at: usize, piece: char) -> Result<(), AllocError> {
    if at <= list.len() {
        list.insert(at, piece)?;
    }
    Ok(())
}

/// A list after the edits: a place that stands past its end is left out.
fn list_after(
    alloc: Global,
    chars: &[char],
    piece: char,
    choice: Choice,
) -> Result<Vec<char>, AllocError> {
    let mut list = Vec::from_slice(alloc, chars)?;
    add(&mut list, choice.first as usize, piece)?;
    add(&mut list, choice.second as usize, piece)?;
    let mut left = Vec::new(alloc);
    for (at, c) in list.iter().enumerate() {
        if at < choice.from as usize || choice.to as usize <= at {
            left.push(*c)?;
        }
    }
    Ok(left)
}

/// The text of a document after the edits.
fn document_after(
    alloc: Global,
    content: &Text,
    piece: &Text,
    choice: Choice,
) -> Result<Option<Text>, AllocError> {
    let mut docs = Docs::new(alloc);
    let done = open(&mut docs, alloc, 1, content.copy()?)?
        && put(&mut docs, 1, choice.first, piece)?
        && put(&mut docs, 1, choice.second, piece)?
        && cut(&mut docs, 1, choice.from, choice.to);
    match docs.get(1) {
        Some(doc) if done => Ok(Some(doc.text()?)),
        _ => Ok(None),
    }
}

/// A text after the edits.
fn text_after(content: &Text, piece: &Text, choice: Choice) -> Result<Option<Text>, AllocError> {
    let mut text = content.copy()?;
    if choice.first > text.len()
        || choice.second > text.len()
        || text.len() + 2 * piece.len() > 1000
    {
        return Ok(None);
    }
    text.insert(choice.first, piece)?;
    text.insert(choice.second, piece)?;
    if choice.from > choice.to || choice.to > text.len() {
        return Ok(None);
    }
    text.erase(choice.from, choice.to);
    Ok(Some(text))
}

/// Whether a text is there and has just these characters.
fn is_list(text: &Option<Text>, wanted: &[char]) -> bool {
    let Some(text) = text else {
        return false;
    };
    let mut at = 0;
    for c in wanted {
        if at >= text.len() || text.char_at(at) != *c {
            return false;
        }
        at += 1;
    }
    at == text.len()
}
