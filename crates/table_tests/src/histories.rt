//! A history with an entry of each kind and a group, and refusals. A line of `history` is a number, of which it is told the line of the
//! entry there as the transcript has it; `most` tells how many entries there may be. A line of `refusals` is a number too, of which it is
//! told the words of the refusal with it.
use crate::marks::{number_of, push_marked, text_of};
use crate::tell::{Tell, tell_all};
use ide_text::{Name, SharedText};
use std::alloc::{AllocError, Global};
use write_history::{Change, Changes, Entry, History, MAX_ENTRIES, Refusal, line_of};

/// Tells lines of the history.
pub fn play(alloc: Global, lines: &str, out: &mut String) -> Result<(), AllocError> {
    tell_all(alloc, &mut history(alloc)?, lines, out)
}

impl Tell for History {
    fn tell(&mut self, alloc: Global, line: &str, out: &mut String) -> Result<(), AllocError> {
        match line {
            "most" => write!(out, " {MAX_ENTRIES}"),
            number => push_entry(alloc, self, u64::from(number_of(number)), out),
        }
    }
}

/// Adds the line of an entry.
fn push_entry(
    alloc: Global,
    history: &History,
    position: u64,
    out: &mut String,
) -> Result<(), AllocError> {
    if position == 0 || position > history.len() {
        return out.push_str(" no such entry");
    }
    let line = line_of(alloc, position, history.get(position))?;
    out.push(' ')?;
    push_marked(out, str::from_utf8(&line).unwrap_or("no text"))
}

/// The text of some letters.
fn shared(alloc: Global, letters: &str) -> Result<SharedText, AllocError> {
    SharedText::new(alloc, text_of(alloc, letters)?)
}

/// The change of a line, of another kind for each of eleven.
fn change_of(alloc: Global, line: u32) -> Result<Change, AllocError> {
    let path = Name::of(alloc, "src/A.java")?;
    Ok(match line {
        1 => Change::Create {
            path,
            text: shared(alloc, "class A {}")?,
        },
        2 => Change::Write {
            path,
            text: shared(alloc, "")?,
        },
        3 => Change::OpenDoc { path },
        4 => Change::Insert {
            path,
            at: u32::MAX,
            text: shared(alloc, "class A {}")?,
        },
        5 => Change::Erase {
            path,
            from: 0,
            to: u32::MAX,
        },
        6 => Change::Commit { path },
        7 => Change::Save { path },
        8 => Change::CloseDoc { path },
        9 => Change::Intake {
            file: u32::MAX,
            stamp: u64::MAX,
        },
        10 => Change::Move {
            path,
            to: Name::of(alloc, "b")?,
        },
        _ => Change::Delete { path },
    })
}

/// A group of two changes.
fn group(alloc: Global) -> Result<Changes, AllocError> {
    let path = Name::of(alloc, "src/A.java")?;
    let mut changes = Vec::new(alloc);
    changes.push(Change::Delete { path })?;
    changes.push(Change::Intake { file: 1, stamp: 1 })?;
    Ok(Changes::from_vec(changes))
}

/// The history that has those lines.
fn history(alloc: Global) -> Result<History, AllocError> {
    let mut history = History::new(alloc);
    for line in 1..=11 {
        let change = change_of(alloc, line)?;
        add(&mut history, 0, line, &Changes::one(change.copy()?))?;
    }
    add(&mut history, 24, u32::MAX, &group(alloc)?)?;
    Ok(history)
}

/// Adds an entry with a copy of changes.
fn add(history: &mut History, seat: u32, line: u32, changes: &Changes) -> Result<(), AllocError> {
    let changes = changes.copy()?;
    history.reserve()?;
    history.push(Entry {
        seat,
        line,
        changes,
    });
    Ok(())
}

static REFUSALS: [Refusal; 15] = [
    Refusal::NoSuchFile,
    Refusal::PathTaken,
    Refusal::BadPath,
    Refusal::NotOpen,
    Refusal::AlreadyOpen,
    Refusal::BadRange { length: 7 },
    Refusal::Unsaved,
    Refusal::Uncommitted,
    Refusal::Conflict,
    Refusal::FilesFull,
    Refusal::DocsFull,
    Refusal::TextFull { count: 1_048_577 },
    Refusal::Stale {
        made: 1,
        present: 20,
    },
    Refusal::HistoryFull,
    Refusal::OutOfMemory,
];

/// Tells the words of refusals.
pub fn tell_refusal(line: &str, out: &mut String) -> Result<(), AllocError> {
    match REFUSALS.get(number_of(line) as usize) {
        Some(refusal) => write!(out, " {refusal}"),
        None => out.push_str(" no such refusal"),
    }
}
