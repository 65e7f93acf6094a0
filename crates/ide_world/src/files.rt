//! The steps of changes to files: create, write, delete, move, and the intake of index data.
ghost use Rattle.std.specs.Prelude.{◌≡◌, ℕ, List, Option, None, IfOk, IfSome, option_map};
ghost use Rattle.write_history.specs.declared.change.Change.TheVariants.{Create, Write, Delete, Intake, Move};
ghost use Rattle.std.specs.Option.{option_copied};
ghost use Rattle.write_history.specs.Effect.{refusal_of};
ghost use Rattle.dumb_mode.specs.Filter.{kind_of};
ghost use Rattle.ide_world.specs.Drafted.{drafted_world};
ghost use Rattle.ide_world.specs.Builds.{Builds, moved_index, intake_index};
ghost use Rattle.overlay_index.specs.Parts.{parts_of};
ghost use Rattle.ide_world.specs.Task.{IsOfWorld};

use crate::data::Made;
use crate::draft::Draft;
use crate::{DocEdit, IndexEdit, RowEdit, Step};
use document_buf::Doc;
use dumb_mode::{FileKind, is_same_kind, kind_of, passes_filter};
use ide_text::{Name, SharedText};
use overlay_index::{FileData, data_of};
use std::alloc::{AllocError, Global};
use vfs_core::FileRow;

pub(crate) fn created(draft: &Draft<'_>, path: &Name, text: &SharedText) -> Result<Step, AllocError>
    requires { refusal_of (drafted_world draft.now) (Create path.now text.now) ≡ None }
    ensures { IfOk result (Builds (drafted_world draft.now) (Create path.now text.now)) }
{
    Ok(Step {
        id: draft.made() as u32 + 1,
        row: RowEdit::Put {
            row: stamped_row(draft, path, text, None)?,
        },
        doc: DocEdit::Keep,
        index: IndexEdit::Keep,
        draws: true,
    })
}

pub(crate) fn written(
    alloc: Global,
    draft: &Draft<'_>,
    path: &Name,
    text: &SharedText,
) -> Result<Step, AllocError>
    requires { refusal_of (drafted_world draft.now) (Write path.now text.now) ≡ None }
    ensures { IfOk result (Builds (drafted_world draft.now) (Write path.now text.now)) }
{
    let Some(found) = draft.find(path) else {
        unreachable!()
    };
    let doc = match draft.summary(found.id) {
        Some(_) => DocEdit::Replace {
            doc: Doc::open(alloc, text, 0)?,
        },
        None => DocEdit::Keep,
    };
    let row = match stamped_row(draft, &found.row.path, text, found.row.indexed) {
        Ok(row) => row,
        Err(refusal) => {
            drop(doc);
            return Err(refusal);
        }
    };
    Ok(Step {
        id: found.id,
        row: RowEdit::Put { row },
        doc,
        index: IndexEdit::Keep,
        draws: true,
    })
}

/// A row with copies of a path and of a content, and the stamp that is drawn next.
fn stamped_row(
    draft: &Draft<'_>,
    path: &Name,
    content: &SharedText,
    indexed: Option<u64>,
) -> Result<FileRow, AllocError>
    ensures { IfOk result
        (λ row. row
        ≡ record {
          path = path.now;
          content = content.now;
          stamp = (drafted_world draft.now).next_stamp;
          indexed = indexed;
        }) }
{
    Ok(FileRow {
        path: path.copy()?,
        content: content.share()?,
        stamp: draft.next_stamp(),
        indexed,
    })
}

pub(crate) fn deleted(draft: &Draft<'_>, path: &Name) -> Step
    requires { refusal_of (drafted_world draft.now) (Delete path.now) ≡ None }
    ensures { Builds (drafted_world draft.now) (Delete path.now) result }
{
    let Some(found) = draft.find(path) else {
        unreachable!()
    };
    Step {
        id: found.id,
        row: RowEdit::Remove,
        doc: DocEdit::Close,
        index: IndexEdit::Drop,
        draws: false,
    }
}

pub(crate) fn moved(
    alloc: Global,
    draft: &Draft<'_>,
    path: &Name,
    to: &Name,
) -> Result<Step, AllocError>
    requires { refusal_of (drafted_world draft.now) (Move path.now to.now) ≡ None }
    ensures { IfOk result (Builds (drafted_world draft.now) (Move path.now to.now)) }
{
    let Some(found) = draft.find(path) else {
        unreachable!()
    };
    let row = stamped_row(draft, to, &found.row.content, found.row.indexed)?;
    match moved_index(alloc, &found.row.path, to, draft.committed(found.id)) {
        Ok(index) => Ok(Step {
            id: found.id,
            row: RowEdit::Put { row },
            doc: DocEdit::Keep,
            index,
            draws: true,
        }),
        Err(refusal) => {
            drop(row);
            Err(refusal)
        }
    }
}

/// What a move makes of the index data: nothing where the kind stays; else a file that has a kind and is open gets those
/// of its committed text, and any other loses them.
fn moved_index(
    alloc: Global,
    path: &Name,
    to: &Name,
    committed: Option<&SharedText>,
) -> Result<IndexEdit, AllocError>
    ensures { IfOk result
        (λ edit. edit
        ≡ moved_index (kind_of path.now) (kind_of to.now) (option_copied committed.entry)) }
{
    let kind = kind_of(to);
    if is_same_kind(kind_of(path), kind) {
        return Ok(IndexEdit::Keep);
    }
    match (kind, committed) {
        (Some(kind), Some(text)) => Ok(IndexEdit::SetOverlay {
            parts: data_of(alloc, kind, text.as_text())?,
        }),
        _ => Ok(IndexEdit::Drop),
    }
}

pub(crate) fn taken_in(draft: &Draft<'_>, made: Made) -> Result<Step, AllocError>
    requires accepted { refusal_of (drafted_world draft.now) (Intake made.file made.stamp) ≡ None }
    requires of_world { IsOfWorld (drafted_world draft.now)
        (record { file = made.file; kind = made.kind; stamp = made.stamp; content = made.text }) }
    ensures { IfOk result (Builds (drafted_world draft.now) (Intake made.file made.stamp)) }
{
    let Some(row) = draft.row(made.file) else {
        unreachable!()
    };
    let mut row = match row.copy() {
        Ok(row) => row,
        Err(refusal) => {
            drop(made);
            return Err(refusal);
        }
    };
    row.indexed = Some(made.stamp);
    let index = intake_index(&row.path, made.kind, made.parts);
    Ok(Step {
        id: made.file,
        row: RowEdit::Put { row },
        doc: DocEdit::Keep,
        index,
        draws: false,
    })
}

/// What an intake of data of a kind makes of the index data. Where the file has a kind, it is that one.
fn intake_index(path: &Name, kind: FileKind, parts: FileData) -> IndexEdit
    requires { IfSome (kind_of path.now) (λ k. k ≡ kind) }
    ensures { (text : List ℕ) → parts ≡ parts_of kind text
        → result ≡ intake_index (kind_of path.now) text }
{
    if !passes_filter(path) {
        return IndexEdit::Keep;
    }
    IndexEdit::SetBase { parts }
}
