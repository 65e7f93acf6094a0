//! The steps of changes to documents: open, insert, erase, commit, save, close.
ghost use Rattle.std.specs.Prelude.{◌≡◌, ℕ, List, None, IfOk};
ghost use Rattle.write_history.specs.declared.change.Change.TheVariants.{OpenDoc, Insert, Erase, Commit, Save, CloseDoc};
ghost use Rattle.write_history.specs.Effect.{refusal_of};
ghost use Rattle.dumb_mode.specs.Filter.{kind_of};
ghost use Rattle.dumb_mode.specs.Unready.{is_indexed_at};
ghost use Rattle.ide_world.specs.Drafted.{drafted_world};
ghost use Rattle.ide_world.specs.Builds.{Builds, overlay_edit, show_index, open_index, commit_index, close_index, edit_step};

use crate::draft::Draft;
use crate::{DocEdit, IndexEdit, RowEdit, Step};
use document_buf::Doc;
use dumb_mode::kind_of;
use ide_text::{Name, SharedText};
use overlay_index::data_of;
use std::alloc::{AllocError, Global};
use vfs_core::FileRow;

pub(crate) fn opened(alloc: Global, draft: &Draft<'_>, path: &Name) -> Result<Step, AllocError>
    requires { refusal_of (drafted_world draft.now) (OpenDoc path.now) ≡ None }
    ensures { IfOk result (Builds (drafted_world draft.now) (OpenDoc path.now)) }
{
    let Some(found) = draft.find(path) else {
        unreachable!()
    };
    let doc = Doc::open(alloc, &found.row.content, 0)?;
    let index = opened_index(alloc, found.row)?;
    Ok(Step {
        id: found.id,
        row: RowEdit::Keep,
        doc: DocEdit::Open { doc },
        index,
        draws: false,
    })
}

pub(crate) fn inserted(
    draft: &Draft<'_>,
    path: &Name,
    at: u32,
    text: &SharedText,
) -> Result<Step, AllocError>
    requires { refusal_of (drafted_world draft.now) (Insert path.now at text.now) ≡ None }
    ensures { IfOk result (Builds (drafted_world draft.now) (Insert path.now at text.now)) }
{
    let Some(found) = draft.find(path) else {
        unreachable!()
    };
    Ok(edit_of(
        found.id,
        DocEdit::Insert {
            at,
            text: text.share()?,
        },
    ))
}

pub(crate) fn erased(draft: &Draft<'_>, path: &Name, from: u32, to: u32) -> Step
    requires { refusal_of (drafted_world draft.now) (Erase path.now from to) ≡ None }
    ensures { Builds (drafted_world draft.now) (Erase path.now from to) result }
{
    let Some(found) = draft.find(path) else {
        unreachable!()
    };
    edit_of(found.id, DocEdit::Erase { from, to })
}

/// The step that edits the document of a file and no more.
fn edit_of(id: u32, doc: DocEdit) -> Step
    ensures { result ≡ edit_step id doc }
{
    Step {
        id,
        row: RowEdit::Keep,
        doc,
        index: IndexEdit::Keep,
        draws: false,
    }
}

pub(crate) fn committed(alloc: Global, draft: &Draft<'_>, path: &Name) -> Result<Step, AllocError>
    requires { refusal_of (drafted_world draft.now) (Commit path.now) ≡ None }
    ensures { IfOk result (Builds (drafted_world draft.now) (Commit path.now)) }
{
    let Some(found) = draft.find(path) else {
        unreachable!()
    };
    let is_new = draft.is_uncommitted(found.id)?;
    let Some(text) = draft.shared_text(alloc, found.id, is_new)? else {
        unreachable!()
    };
    let index = committed_index(alloc, &found.row.path, &text, is_new)?;
    Ok(Step {
        id: found.id,
        row: RowEdit::Keep,
        doc: DocEdit::Commit { text },
        index,
        draws: false,
    })
}

pub(crate) fn saved(alloc: Global, draft: &Draft<'_>, path: &Name) -> Result<Step, AllocError>
    requires { refusal_of (drafted_world draft.now) (Save path.now) ≡ None }
    ensures { IfOk result (Builds (drafted_world draft.now) (Save path.now)) }
{
    let Some(found) = draft.find(path) else {
        unreachable!()
    };
    let is_new = draft.is_uncommitted(found.id)?;
    let Some(content) = draft.shared_text(alloc, found.id, is_new)? else {
        unreachable!()
    };
    Ok(Step {
        id: found.id,
        row: RowEdit::Put {
            row: FileRow {
                path: found.row.path.copy()?,
                content,
                stamp: draft.next_stamp(),
                indexed: found.row.indexed,
            },
        },
        doc: DocEdit::MarkSaved,
        index: IndexEdit::Keep,
        draws: true,
    })
}

pub(crate) fn closed(draft: &Draft<'_>, path: &Name) -> Result<Step, AllocError>
    requires { refusal_of (drafted_world draft.now) (CloseDoc path.now) ≡ None }
    ensures { IfOk result (Builds (drafted_world draft.now) (CloseDoc path.now)) }
{
    let Some(found) = draft.find(path) else {
        unreachable!()
    };
    let mut row = found.row.copy()?;
    row.indexed = Some(row.stamp);
    let index = closed_index(&row.path);
    Ok(Step {
        id: found.id,
        row: RowEdit::Put { row },
        doc: DocEdit::Close,
        index,
        draws: false,
    })
}

/// What a close makes of the index data: where the path's file has a kind, those of the document become those of the
/// content.
fn closed_index(path: &Name) -> IndexEdit
    ensures { result ≡ close_index (kind_of path.now) }
{
    match kind_of(path) {
        Some(_) => IndexEdit::ToBase,
        None => IndexEdit::Keep,
    }
}

/// What an open makes of the index data: where those of the content are there, they are shown on, else they are made.
fn opened_index(alloc: Global, row: &FileRow) -> Result<IndexEdit, AllocError>
    ensures { IfOk result
        (λ edit. edit
        ≡ open_index (is_indexed_at row.now.stamp row.now.indexed)
        (kind_of row.now.path) row.now.content) }
{
    if row.indexed == Some(row.stamp) {
        return Ok(shown_index(&row.path));
    }
    overlay(alloc, &row.path, &row.content)
}

/// The index data that a file shows, as those of its document, where the path's file has a kind.
fn shown_index(path: &Name) -> IndexEdit
    ensures { result ≡ show_index (kind_of path.now) }
{
    match kind_of(path) {
        Some(_) => IndexEdit::ToOverlay,
        None => IndexEdit::Keep,
    }
}

/// What a commit makes of the index data: where the text was committed before, they stay.
fn committed_index(
    alloc: Global,
    path: &Name,
    text: &SharedText,
    is_new: bool,
) -> Result<IndexEdit, AllocError>
    ensures { IfOk result (λ edit. edit ≡ commit_index is_new (kind_of path.now) text.now) }
{
    if is_new {
        overlay(alloc, path, text)
    } else {
        Ok(IndexEdit::Keep)
    }
}

/// The index data of a text over those of the content, where the path's file has a kind.
fn overlay(alloc: Global, path: &Name, text: &SharedText) -> Result<IndexEdit, AllocError>
    ensures { IfOk result (λ edit. edit ≡ overlay_edit (kind_of path.now) text.now) }
{
    let Some(kind) = kind_of(path) else {
        return Ok(IndexEdit::Keep);
    };
    Ok(IndexEdit::SetOverlay {
        parts: data_of(alloc, kind, text.as_text())?,
    })
}
