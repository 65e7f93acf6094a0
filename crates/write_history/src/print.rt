//! How the transcript prints an entry of the history, and why a change was refused.
ghost use Rattle.std.specs.Prelude.{◌≡◌, ◌++◌, IfOk, OnOk, codes, decimal, encode_utf8_all, string_bytes};
ghost use Rattle.write_history.specs.Print.{entry_line, change_text, changes_text, group_line, group_text};

use crate::pieces::{push_named, push_numbered};
use crate::{Change, Entry, Refusal};
use ide_text::Name;
use std::alloc::{AllocError, Global};
use std::fmt;

/// The line of the entry at a position, in UTF-8, with its line end; a group has a line more for each change.
pub fn line_of(alloc: Global, position: u64, entry: &Entry) -> Result<Vec<u8>, AllocError>
    ensures { IfOk result (λ line. line.items ≡ entry_line position entry.now) }
{
    let mut out = String::new(alloc);
    push_line(&mut out, position, entry)?;
    Ok(out.into_bytes())
}

/// Adds that line.
pub fn push_line(out: &mut String, position: u64, entry: &Entry) -> Result<(), AllocError>
    ensures { OnOk result
        (string_bytes out.new ≡ string_bytes out.old ++ entry_line position entry.now) }
{
    push_numbered(out, "", position)?;
    push_numbered(out, " ", entry.seat as u64)?;
    push_numbered(out, " ", entry.line as u64)?;
    out.push_str(" ")?;
    push_changes(out, entry.changes.as_slice())
}

/// Adds what the line of an entry ends in, and the lines of a group.
fn push_changes(out: &mut String, changes: &[Change]) -> Result<(), AllocError>
    ensures { OnOk result
        (string_bytes out.new ≡ string_bytes out.old ++ changes_text changes.now) }
{
    match changes {
        [change] => {
            push_change(out, change)?;
            out.push_str("\n")
        }
        _ => push_group(out, changes),
    }
}

/// Adds the number of the changes of a group, and a line for each.
fn push_group(out: &mut String, changes: &[Change]) -> Result<(), AllocError>
    ensures { OnOk result (string_bytes out.new ≡ string_bytes out.old ++ group_text changes.now) }
{
    push_numbered(out, "group ", changes.len() as u64)?;
    out.push_str("\n")?;
    for change in changes {
        push_group_line(out, change)?;
    }
    Ok(())
}

/// Adds the line of a change of a group.
fn push_group_line(out: &mut String, change: &Change) -> Result<(), AllocError>
    ensures { OnOk result (string_bytes out.new ≡ string_bytes out.old ++ group_line change.now) }
{
    out.push_str("  ")?;
    push_change(out, change)?;
    out.push_str("\n")
}

/// Adds the kind and the fields of a change; of a text its number of characters.
fn push_change(out: &mut String, change: &Change) -> Result<(), AllocError>
    ensures { OnOk result (string_bytes out.new ≡ string_bytes out.old ++ change_text change.now) }
{
    match change {
        Change::Create { path, text } => push_at(out, "create ", path, text.len() as u64),
        Change::Write { path, text } => push_at(out, "write ", path, text.len() as u64),
        Change::Delete { path } => push_named(out, "delete ", path),
        Change::OpenDoc { path } => push_named(out, "open ", path),
        Change::Insert { path, at, text } => {
            push_span(out, "insert ", path, *at, text.len() as u64)
        }
        Change::Erase { path, from, to } => push_span(out, "erase ", path, *from, *to as u64),
        Change::Commit { path } => push_named(out, "commit ", path),
        Change::Save { path } => push_named(out, "save ", path),
        Change::CloseDoc { path } => push_named(out, "close ", path),
        Change::Intake { file, stamp } => {
            push_numbered(out, "intake ", *file as u64)?;
            push_numbered(out, " ", *stamp)
        }
        Change::Move { path, to } => {
            push_named(out, "move ", path)?;
            push_named(out, " ", to)
        }
    }
}

/// Adds a text, and a name and a number behind it.
fn push_at(out: &mut String, before: &str, path: &Name, number: u64) -> Result<(), AllocError>
    ensures { OnOk result (string_bytes out.new ≡ string_bytes out.old
        ++ (before.now ++ encode_utf8_all path.now ++ codes " " ++ decimal number)) }
{
    push_named(out, before, path)?;
    push_numbered(out, " ", number)
}

/// Adds a text, and a name and two numbers behind it.
fn push_span(
    out: &mut String,
    before: &str,
    path: &Name,
    at: u32,
    number: u64,
) -> Result<(), AllocError>
    ensures { OnOk result (string_bytes out.new ≡ string_bytes out.old
        ++ (before.now ++ encode_utf8_all path.now ++ codes " " ++ decimal at ++ codes " " ++ decimal number)) }
{
    push_at(out, before, path, at as u64)?;
    push_numbered(out, " ", number)
}

impl fmt::Display for Refusal {
    ghost use Rattle.std.specs.Prelude.{Some};
    ghost use Rattle.write_history.specs.Print.{why_text};

    ghost output = { λ refusal. Some (why_text refusal) };

    fn fmt<W: fmt::Write>(&self, f: &mut fmt::Formatter<W>) -> fmt::Result {
        match self {
            Refusal::NoSuchFile => f.write_str("no-such-file"),
            Refusal::PathTaken => f.write_str("path-taken"),
            Refusal::BadPath => f.write_str("bad-path"),
            Refusal::NotOpen => f.write_str("not-open"),
            Refusal::AlreadyOpen => f.write_str("already-open"),
            Refusal::BadRange { length } => write!(f, "bad-range {length}"),
            Refusal::Unsaved => f.write_str("unsaved"),
            Refusal::Uncommitted => f.write_str("uncommitted"),
            Refusal::Conflict => f.write_str("conflict"),
            Refusal::FilesFull => f.write_str("files-full"),
            Refusal::DocsFull => f.write_str("docs-full"),
            Refusal::TextFull { count } => write!(f, "text-full {count}"),
            Refusal::Stale { made, present } => write!(f, "stale {made} {present}"),
            Refusal::HistoryFull => f.write_str("history-full"),
            Refusal::OutOfMemory => f.write_str("out-of-memory"),
        }
    }
}
