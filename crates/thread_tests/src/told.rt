//! What the records of a transcript say, apart from the prefixes at which they hold.
use std::alloc::{AllocError, Global};

/// A section of a script: its seat, and the last of its lines.
pub struct Section {
    pub seat: u32,
    pub last_line: u32,
}

/// The records of a transcript.
#[derive(Drop)]
pub struct Told {
    /// Them all, without the prefixes at which they hold.
    pub answers: String,
    /// Whether these prefixes never fall within a section, and each accepted change is the entry that it names.
    pub is_in_order: bool,
}

/// Reads the records of a transcript.
pub fn records_of(alloc: Global, written: &str, sections: &[Section]) -> Result<Told, AllocError> {
    let mut answers = String::new(alloc);
    let mut is_in_order = true;
    let mut before = (0, 0);
    for line in written.lines() {
        if line.starts_with("  ") {
            push_line(&mut answers, line)?;
        }
        if let Some((number, at, answer)) = parts_of(line) {
            answers.push_str(number)?;
            answers.push_str(" ")?;
            push_line(&mut answers, answer)?;
            let seat = seat_of(sections, value_of(number));
            let here = (seat, value_of(at));
            is_in_order &= seat != before.0 || before.1 <= here.1;
            is_in_order &= answer != "accepted" || is_entry(alloc, written, at, seat, number)?;
            before = here;
        }
    }
    Ok(Told {
        answers,
        is_in_order,
    })
}

/// The number of entries that a transcript tells.
pub fn entries_of(written: &str) -> &str {
    match written.split_once("\n") {
        Some((first, _)) => first.strip_prefix("history ").unwrap_or(""),
        None => "",
    }
}

/// The number of a record's line, the prefix and the answer.
pub fn parts_of(line: &str) -> Option<(&str, &str, &str)> {
    let (number, rest) = line.split_once(" at ")?;
    let (at, answer) = rest.split_once(" ")?;
    Some((number, at, answer))
}

/// Whether the entry at a place has this seat and line.
fn is_entry(
    alloc: Global,
    written: &str,
    at: &str,
    seat: u32,
    number: &str,
) -> Result<bool, AllocError> {
    let entry = format!(in alloc; "\n{at} {seat} {number} ")?;
    Ok(written.contains(entry.as_str()))
}

/// The seat of the section in which a line stands.
fn seat_of(sections: &[Section], line: u32) -> u32 {
    for section in sections {
        if line <= section.last_line {
            return section.seat;
        }
    }
    0
}

/// The number that digits spell.
fn value_of(digits: &str) -> u32 {
    digits.parse::<u32>().unwrap_or(0)
}

/// Adds a line and its end.
fn push_line(answers: &mut String, line: &str) -> Result<(), AllocError> {
    answers.push_str(line)?;
    answers.push_str("\n")
}
