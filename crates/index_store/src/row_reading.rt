//! Bytes to entries, whose data are only known to be lawful.
ghost use Rattle.std.specs.Prelude.{◌≡◌, ◌≤◌, None, IfOk, length, not, ◌==◌, option_copied};
ghost use Rattle.std.specs.List.{list_all};
ghost use Rattle.std.specs.Ordering.{is_lt};
ghost use Rattle.ide_text.specs.Text.{carriage_return, max_chars};
ghost use Rattle.byte_fields.specs.Answers.{Gives};
ghost use Rattle.byte_fields.specs.Reading.{many_at};
ghost use Rattle.index_store.specs.Data.{entry_cmp};
ghost use Rattle.index_store.specs.Lawful.{entry_rises};
ghost use Rattle.byte_fields.specs.Reading.{counted_at};
ghost use Rattle.index_store.specs.Reading.{all_of, entry_at, may_be_text, row_at};

use crate::data_reading::past_data;
use crate::kind_code::{code_of, kind_of};
use byte_fields::{Fault, characters_of, check, number_of};
use dumb_mode::FileKind;
use ide_text::{MAX_CHARS, Name};
use std::alloc::Global;
use std::marker::Model;

/// An entry whose fields were read, with the bytes of its data.
#[derive(Drop)]
pub(crate) struct RowRef<'a> {
    pub(crate) text: Name,
    pub(crate) kind: FileKind,
    pub(crate) data: &'a [u8],
}

impl<'a> Model for RowRef<'a> {
    ghost use Rattle.index_store.specs.Spelling.{StoreRow};

    ghost Value = { StoreRow };

    ghost view = { λ h. (record { text = h.text; kind = h.kind }, h.data.now) };
}

/// All entries of the bytes of a store, whose versions were looked at.
#[tactic(auto, unfolding(crate::specs::Reading::all_of, byte_fields::specs::Reading::counted_at))]
pub(crate) fn all(alloc: Global, bytes: &[u8]) -> Result<Vec<RowRef>, Fault>
    ensures { Gives (λ rows. rows.items) result (all_of bytes.now) }
{
    check(6 <= bytes.len(), &[])?;
    let (_, rest) = bytes.split_at(6);
    let (count, rest) = number_of(rest)?;
    let (rows, rest) = rows_of(alloc, count, rest)?;
    check(rest.is_empty(), rest)?;
    Ok(rows)
}

/// So many entries.
fn rows_of(alloc: Global, count: u32, bytes: &[u8]) -> Result<(Vec<RowRef>, &[u8]), Fault>
    ensures { Gives (λ x. (x.0.items, x.1.now)) result (many_at row_at count None bytes.now) }
{
    let mut rows = Vec::new(alloc);
    let mut rest = bytes;
    for _ in 0..count {
        let (row, after) = row_of(alloc, rows.last(), rest)?;
        rows.push(row)?;
        rest = after;
    }
    Ok((rows, rest))
}

/// An entry with its data, behind the one before it.
#[tactic(auto, unfolding(crate::specs::Reading::row_at))]
fn row_of<'a>(
    alloc: Global,
    before: Option<&RowRef>,
    bytes: &'a [u8],
) -> Result<(RowRef<'a>, &'a [u8]), Fault>
    ensures { Gives (λ x. (x.0, x.1.now)) result (row_at (option_copied before.entry) bytes.now) }
{
    let (text, kind, rest) = entry_of(alloc, before, bytes)?;
    let end = past_data(alloc, kind, text.len() as u32, rest)?;
    let (data, _) = rest.split_at(rest.len().saturating_sub(end.len()));
    Ok((RowRef { text, kind, data }, end))
}

/// A text with the kind of its file, behind the entry before it.
#[tactic(auto, unfolding(crate::specs::Reading::entry_at))]
fn entry_of<'a>(
    alloc: Global,
    before: Option<&RowRef>,
    bytes: &'a [u8],
) -> Result<(Name, FileKind, &'a [u8]), Fault>
    ensures value { Gives (λ x. (record { text = x.0; kind = x.1 }, x.2.now)) result
        (entry_at (option_copied before.entry) bytes.now) }
    ensures few { IfOk result (λ x. length x.0 ≤ max_chars) }
{
    let (kind, rest) = kind_of(bytes)?;
    let (len, rest) = number_of(rest)?;
    let (text, end) = characters_of(alloc, len, rest)?;
    let lawful = may_be_text(&text);
    check(lawful, rest)?;
    check(entry_rises(before, &text, kind), rest)?;
    Ok((text, kind, end))
}

/// Whether characters are those of a text: not too many, and no carriage return.
fn may_be_text(text: &Name) -> bool
    ensures { result ≡ may_be_text text.now }
{
    text.len() <= MAX_CHARS && has_no_return(text)
}

/// Whether no character is a carriage return.
fn has_no_return(text: &Name) -> bool
    ensures { result ≡ list_all (λ c. not (c == carriage_return)) text.now }
{
    text.as_str().chars().all(is_no_return)
}

/// Whether a character is no carriage return.
fn is_no_return(c: char) -> bool
    ensures { result ≡ not (c == carriage_return) }
{
    c != '\r'
}

/// Whether an entry may stand behind one.
fn entry_rises(before: Option<&RowRef>, text: &Name, kind: FileKind) -> bool
    ensures { result
        ≡ entry_rises (option_copied before.entry) (record { text = text.now; kind = kind }) }
{
    match before {
        Some(last) => is_below(last, text, kind),
        None => true,
    }
}

/// Whether an entry is below one of this text and kind.
fn is_below(last: &RowRef, text: &Name, kind: FileKind) -> bool
    ensures { result ≡ is_lt (entry_cmp last.now.0 (record { text = text.now; kind = kind })) }
{
    last.text
        .cmp(text)
        .then(code_of(last.kind).cmp(&code_of(kind)))
        .is_lt()
}
