//! Commands as they are printed: in the form of their lines, with texts in angle brackets.
use crate::marks::{mark, push_marked};
use ide_text::{Name, SharedText};
use script_lang::{Command, Query};
use std::alloc::AllocError;
use write_history::Change;

/// Longer texts are shown by their length.
const SHOWN_CHARS: u32 = 100;

/// One command.
pub fn push_command(out: &mut String, command: &Command) -> Result<(), AllocError> {
    match command {
        Command::Change(change) => push_change(out, change),
        Command::Group(changes) => push_changes(out, changes.as_slice()),
        Command::Load { path } => push_named(out, "load ", path),
        Command::Settle => out.push_str("settle"),
        Command::Ask(query) => push_query(out, query),
        Command::Soft { attempts, query } => {
            write!(out, "soft {attempts} ")?;
            push_query(out, query)
        }
    }
}

/// A group.
fn push_changes(out: &mut String, changes: &[Change]) -> Result<(), AllocError> {
    out.push_str("group(")?;
    for change in changes {
        push_change(out, change)?;
        out.push(',')?;
    }
    out.push(')')
}

/// A question.
fn push_query(out: &mut String, query: &Query) -> Result<(), AllocError> {
    match query {
        Query::Class { name } => push_named(out, "class ", name),
        Query::Supers { name } => push_named(out, "supers ", name),
        Query::Method { name } => push_named(out, "method ", name),
        Query::Word { name } => push_named(out, "word ", name),
        Query::Usages { name } => push_named(out, "usages ", name),
        Query::Inheritors { name } => push_named(out, "inheritors ", name),
        Query::Key { key } => {
            push_named(out, "key <", key)?;
            out.push('>')
        }
        Query::Outline { path } => push_named(out, "outline ", path),
        Query::Status => out.push_str("status"),
    }
}

/// A change.
fn push_change(out: &mut String, change: &Change) -> Result<(), AllocError> {
    match change {
        Change::Create { path, text } => {
            push_named(out, "create ", path)?;
            push_text(out, text)
        }
        Change::Write { path, text } => {
            push_named(out, "write ", path)?;
            push_text(out, text)
        }
        Change::Delete { path } => push_named(out, "delete ", path),
        Change::OpenDoc { path } => push_named(out, "open ", path),
        Change::Insert { path, at, text } => {
            push_named(out, "insert ", path)?;
            push_number(out, *at)?;
            push_text(out, text)
        }
        Change::Erase { path, from, to } => {
            push_named(out, "erase ", path)?;
            push_number(out, *from)?;
            push_number(out, *to)
        }
        Change::Commit { path } => push_named(out, "commit ", path),
        Change::Save { path } => push_named(out, "save ", path),
        Change::CloseDoc { path } => push_named(out, "close ", path),
        Change::Intake { .. } => out.push_str("intake"),
        Change::Move { path, to } => {
            push_named(out, "move ", path)?;
            push_named(out, " ", to)
        }
    }
}

/// A word and a name or a path.
fn push_named(out: &mut String, word: &str, name: &Name) -> Result<(), AllocError> {
    out.push_str(word)?;
    push_marked(out, name.as_str())
}

/// A number after a space.
fn push_number(out: &mut String, number: u32) -> Result<(), AllocError> {
    write!(out, " {number}")
}

/// A text in angle brackets.
fn push_text(out: &mut String, text: &SharedText) -> Result<(), AllocError> {
    let text = text.as_text();
    out.push_str(" <")?;
    if text.len() > SHOWN_CHARS {
        write!(out, "{} characters", text.len())?;
    } else {
        for at in 0..text.len() {
            out.push(mark(text.char_at(at)))?;
        }
    }
    out.push('>')
}
