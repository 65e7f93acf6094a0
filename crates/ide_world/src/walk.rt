//! Walks over steps: what they make of one part of a file, and of the id at a path.
ghost use Rattle.std.specs.Prelude.{◌≡◌, ◌≤◌, ◌+◌, ◌*◌, List, ℕ, length, Option, Some, IfOk, IfSome, option_map};
ghost use Rattle.std.specs.List.{fold, list_any};
ghost use Rattle.std.specs.Option.{option_copied};
ghost use Rattle.ide_text.specs.Text.{max_chars};
ghost use Rattle.ide_world.specs.RowEdits.{edited_row};
ghost use Rattle.ide_world.specs.Walk.{row_after, summary_after, edited_summary, committed_after, edited_committed, id_after, moved_id, other_than, keeps_texts, edits_texts, text_after, edited_text, IsTextEditFit, AreTextEditsFit};
ghost use Rattle.document_buf.specs.Document.{with_piece, without_part};

use crate::summary::Summary;
use crate::{DocEdit, RowEdit, Step};
use ide_text::{Name, SharedText, Text};
use std::alloc::AllocError;
use vfs_core::FileRow;

/// The row of an id after steps.
pub(crate) fn row<'a>(steps: &'a [Step], id: u32, first: Option<&'a FileRow>) -> Option<&'a FileRow>
    ensures { option_copied result ≡ fold (row_after id) (option_copied first.entry) steps.now }
{
    let mut row = first;
    for step in steps {
        if step.id == id {
            row = edited_row(&step.row, row);
        }
    }
    row
}

fn edited_row<'a>(edit: &'a RowEdit, row: Option<&'a FileRow>) -> Option<&'a FileRow>
    ensures { option_copied result ≡ edited_row edit.now (option_copied row.entry) }
{
    match edit {
        RowEdit::Keep => row,
        RowEdit::Put { row } => Some(row),
        RowEdit::Remove => None,
    }
}

/// What the document of an id looks like after steps.
pub(crate) fn summary(steps: &[Step], id: u32, first: Option<Summary>) -> Option<Summary>
    requires few { length steps.now ≤ 64 }
    requires short { IfSome first (λ summary. summary.len ≤ max_chars) }
    ensures value { result ≡ fold (summary_after id) first steps.now }
    ensures short { IfSome result (λ summary. summary.len ≤ 65 * max_chars) }
{
    let mut summary = first;
    for step in steps {
        if step.id == id {
            summary = edited_summary(&step.doc, summary);
        }
    }
    summary
}

fn edited_summary(edit: &DocEdit, summary: Option<Summary>) -> Option<Summary>
    requires { IfSome summary (λ summary. summary.len ≤ 64 * max_chars) }
    ensures value { result ≡ edited_summary edit.now summary }
    ensures short { (n : ℕ) → 1 ≤ n → IfSome summary (λ summary. summary.len ≤ n * max_chars)
        → IfSome result (λ summary. summary.len ≤ (n + 1) * max_chars) }
{
    if let DocEdit::Open { doc } = edit {
        return Some(Summary {
            len: doc.len(),
            saved: doc.saved(),
        });
    }
    let Summary { len, saved } = summary?;
    match edit {
        DocEdit::Insert { at: _, text } => Some(Summary {
            len: len + text.as_text().len(),
            saved: false,
        }),
        DocEdit::Erase { from, to } => Some(Summary {
            len: len.saturating_sub(to.saturating_sub(*from)),
            saved: false,
        }),
        DocEdit::MarkSaved => Some(Summary { len, saved: true }),
        DocEdit::Replace { doc } => Some(Summary {
            len: doc.len(),
            saved: true,
        }),
        DocEdit::Close => None,
        _ => Some(Summary { len, saved }),
    }
}

/// The committed text of the document of an id after steps.
pub(crate) fn committed<'a>(
    steps: &'a [Step],
    id: u32,
    first: Option<&'a SharedText>,
) -> Option<&'a SharedText>
    ensures { option_copied result
        ≡ fold (committed_after id) (option_copied first.entry) steps.now }
{
    let mut text = first;
    for step in steps {
        if step.id == id {
            text = edited_committed(&step.doc, text);
        }
    }
    text
}

fn edited_committed<'a>(edit: &'a DocEdit, text: Option<&'a SharedText>) -> Option<&'a SharedText>
    ensures { option_copied result ≡ edited_committed edit.now (option_copied text.entry) }
{
    match edit {
        DocEdit::Keep => text,
        DocEdit::Open { doc } => Some(doc.committed()),
        DocEdit::Insert { .. } => text,
        DocEdit::Erase { .. } => text,
        DocEdit::Commit { text: new } => {
            text?;
            Some(new)
        }
        DocEdit::MarkSaved => text,
        DocEdit::Replace { .. } => text,
        DocEdit::Close => None,
    }
}

/// The text of the document of an id after steps. Linear in the texts that the steps bring.
pub(crate) fn text(steps: &[Step], id: u32, first: Option<Text>) -> Result<Option<Text>, AllocError>
    requires { AreTextEditsFit id first steps.now }
    ensures { IfOk result (λ text. text ≡ fold (text_after id) first steps.now) }
{
    let mut text = first;
    for step in steps {
        if step.id == id {
            text = edited_text(&step.doc, text)?;
        }
    }
    Ok(text)
}

fn edited_text(edit: &DocEdit, text: Option<Text>) -> Result<Option<Text>, AllocError>
    requires { IsTextEditFit edit.now text }
    ensures { IfOk result (λ edited. edited ≡ edited_text edit.now text) }
{
    match edit {
        DocEdit::Keep => Ok(text),
        DocEdit::Open { doc } => {
            drop(text);
            Ok(Some(doc.text()?))
        }
        DocEdit::Insert { at, text: piece } => inserted(text, *at, piece.as_text()),
        DocEdit::Erase { from, to } => Ok(erased(text, *from, *to)),
        DocEdit::Commit { .. } => Ok(text),
        DocEdit::MarkSaved => Ok(text),
        DocEdit::Replace { doc } => match text {
            Some(text) => {
                drop(text);
                Ok(Some(doc.text()?))
            }
            None => Ok(None),
        },
        DocEdit::Close => {
            drop(text);
            Ok(None)
        }
    }
}

fn inserted(text: Option<Text>, at: u32, piece: &Text) -> Result<Option<Text>, AllocError>
    requires { IfSome text (λ t. (at ≤ length t) × (length t + length piece.now ≤ max_chars)) }
    ensures { IfOk result (λ edited. edited ≡ option_map (with_piece at piece.now) text) }
{
    let Some(mut text) = text else {
        return Ok(None);
    };
    text.insert(at, piece)?;
    Ok(Some(text))
}

fn erased(text: Option<Text>, from: u32, to: u32) -> Option<Text>
    requires { IfSome text (λ t. (from ≤ to) × (to ≤ length t)) }
    ensures { result ≡ option_map (without_part from to) text }
{
    let mut text = text?;
    text.erase(from, to);
    Some(text)
}

/// Whether a step changes a text of the document of an id.
pub(crate) fn edits_texts(steps: &[Step], id: u32) -> bool
    ensures { result ≡ list_any (edits_texts id) steps.now }
{
    steps
        .iter()
        .any(|step| step.id == id && !keeps_texts(&step.doc))
}

fn keeps_texts(edit: &DocEdit) -> bool
    ensures { result ≡ keeps_texts edit.now }
{
    match edit {
        DocEdit::Keep => true,
        DocEdit::MarkSaved => true,
        _ => false,
    }
}

/// The id at a path after steps.
pub(crate) fn id(steps: &[Step], path: &Name, first: Option<u32>) -> Option<u32>
    ensures { result ≡ fold (id_after path.now) first steps.now }
{
    let mut found = first;
    for step in steps {
        found = moved_id(path, step.id, &step.row, found);
    }
    found
}

fn moved_id(path: &Name, id: u32, edit: &RowEdit, found: Option<u32>) -> Option<u32>
    ensures { result ≡ moved_id path.now id edit.now found }
{
    match edit {
        RowEdit::Keep => found,
        RowEdit::Put { row } if row.path == *path => Some(id),
        RowEdit::Put { .. } => other_than(id, found),
        RowEdit::Remove => other_than(id, found),
    }
}

fn other_than(id: u32, found: Option<u32>) -> Option<u32>
    ensures { result ≡ other_than id found }
{
    let found = found?;
    if found == id { None } else { Some(found) }
}
