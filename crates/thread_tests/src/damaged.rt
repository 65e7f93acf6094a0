//! Transcripts of which one line is damaged, but for those that the rules allow as well.
use crate::changed::{add_lines, changed, joined, lines_of, push_line_forms};
use crate::told::parts_of;
use std::alloc::{AllocError, Global};

/// A transcript of so many lines is damaged in each of them, and a longer one in a few.
const SHORT: usize = 400;

/// In a longer one, one of so many lines.
const ONE_OF: usize = 53;

/// Each form of a transcript with a line damaged: the line is left out, stands twice, or changes places with the next one
/// where that is another; a number of it is greater or less by one, or has a zero before it. And it without its last byte.
///
/// Those numbers are made neither greater nor less for which another run of the script may have another: `is_free` says which.
pub fn damaged(alloc: Global, text: &str) -> Result<Vec<Vec<u8>>, AllocError> {
    let mut forms = Vec::new(alloc);
    push_damaged_lines(alloc, &lines_of(alloc, text)?, &mut forms)?;
    if let Some((_, front)) = text.as_bytes().split_last() {
        forms.push(Vec::from_slice(alloc, front)?)?;
    }
    Ok(forms)
}

/// Whether short texts have as many forms as they should: `history 0` fourteen with one change, a digit being nine others or
/// behind a zero, its one line left out, twice or without its end, and nothing at all; and three lines twenty-eight that are
/// damaged, eight with a line left out, twice or swapped, eight with a zero before a number, eleven with a number greater or
/// less, the seat of the worker and the prefix of the settle apart, and one without the last byte.
pub fn are_counted(alloc: Global) -> Result<bool, AllocError> {
    let lines = "history 1\n1 2 0 intake 1 1\n3 at 1 smart\n";
    Ok(changed(alloc, "history 0\n")?.len() == 14 && damaged(alloc, lines)?.len() == 28)
}

/// Adds the forms of a transcript's lines. In a long one, the number of lines says which are damaged.
fn push_damaged_lines(
    alloc: Global,
    lines: &[&str],
    forms: &mut Vec<Vec<u8>>,
) -> Result<(), AllocError> {
    for place in 0..lines.len() {
        let is_drawn = place.wrapping_add(lines.len()) % ONE_OF == 0;
        if is_drawn || lines.len() <= SHORT {
            let (front, back) = lines.split_at(place);
            push_line_forms(alloc, front, back, forms)?;
            push_numbers(alloc, front, back, forms)?;
        }
    }
    Ok(())
}

/// A place in a line: the lines before it, what the line has before the place and from it on, and the lines behind it.
#[derive(Drop)]
struct Spot<'a> {
    front: &'a [&'a str],
    head: &'a [u8],
    tail: &'a [u8],
    later: &'a [&'a str],
}

/// Adds the forms with a number of the first line of the back damaged.
fn push_numbers(
    alloc: Global,
    front: &[&str],
    back: &[&str],
    forms: &mut Vec<Vec<u8>>,
) -> Result<(), AllocError> {
    let Some((line, later)) = back.split_first() else {
        return Ok(());
    };
    let mut is_in_number = false;
    for place in 0..line.len() {
        let (head, tail) = line.as_bytes().split_at(place);
        let is_digit = line.as_bytes()[place].is_ascii_digit();
        if is_digit && !is_in_number {
            let spot = Spot {
                front,
                head,
                tail,
                later,
            };
            forms.push(with_line(alloc, &spot, b"0", tail)?)?;
            if !is_free(front, line, place) {
                push_other_numbers(alloc, &spot, forms)?;
            }
        }
        is_in_number = is_digit;
    }
    Ok(())
}

/// Adds the forms in which the number at a place is greater or less by one.
fn push_other_numbers(
    alloc: Global,
    spot: &Spot,
    forms: &mut Vec<Vec<u8>>,
) -> Result<(), AllocError> {
    let (value, rest) = number_at(spot.tail);
    let greater = format!(in alloc; "{}", value.wrapping_add(1))?;
    forms.push(with_line(alloc, spot, greater.as_bytes(), rest)?)?;
    if value > 0 {
        let less = format!(in alloc; "{}", value.wrapping_sub(1))?;
        forms.push(with_line(alloc, spot, less.as_bytes(), rest)?)?;
    }
    Ok(())
}

/// The number that bytes begin with, and what follows it.
fn number_at(bytes: &[u8]) -> (u32, &[u8]) {
    let mut value = 0u32;
    for place in 0..bytes.len() {
        let (_, rest) = bytes.split_at(place);
        let digit = bytes[place];
        if !digit.is_ascii_digit() {
            return (value, rest);
        }
        value = value
            .wrapping_mul(10)
            .wrapping_add(u32::from(digit.wrapping_sub(b'0')));
    }
    (value, &[])
}

/// The lines with other bytes at a place, behind what its line has before it.
fn with_line(
    alloc: Global,
    spot: &Spot,
    number: &[u8],
    rest: &[u8],
) -> Result<Vec<u8>, AllocError> {
    let mut out = Vec::new(alloc);
    add_lines(&mut out, spot.front)?;
    out.extend_from_slice(&joined(alloc, spot.head, number, rest)?)?;
    out.push(b'\n')?;
    add_lines(&mut out, spot.later)?;
    Ok(out)
}

/// Whether another run of the script may have another number at a place of a line, behind these lines: the prefix of a record
/// that no entry made, which may hold at the prefix beside it as well, or the seat of the worker that made an entry.
fn is_free(front: &[&str], line: &str, place: usize) -> bool {
    match parts_of(line) {
        Some((number, _, _)) => {
            place == number.len().wrapping_add(4)
                && !front.iter().any(|entry| line_of(entry) == Some(number))
        }
        None => line_of(line) == Some("0") && number_end(line) == Some(place),
    }
}

/// Where the second word of a line begins.
fn number_end(line: &str) -> Option<usize> {
    let (number, _) = line.split_once(" ")?;
    Some(number.len().wrapping_add(1))
}

/// The script's line of an entry, which is 0 where a worker made it; nothing of a line that is no entry.
fn line_of(entry: &str) -> Option<&str> {
    let (_, told) = entry.split_once(" ")?;
    let (seat, told) = told.split_once(" ")?;
    let (line, _) = told.split_once(" ")?;
    if seat == "at" { None } else { Some(line) }
}
