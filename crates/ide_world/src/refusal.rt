//! Why a change is refused: the first reason, in the order of its kind's rules.
ghost use Rattle.std.specs.Prelude.{◌≡◌, ◌≢◌, ℕ, List, Option, Some, None, [], ◌≤◌, IfOk, OnErr, nat_le, length, if◌then◌else◌};
ghost use Rattle.write_history.specs.declared.change.Change.TheVariants.{Create, Write, Delete, OpenDoc, Insert, Erase, Commit, Save, CloseDoc, Intake, Move};
ghost use Rattle.write_history.specs.Effect.{refusal_of, max_entries, is_unsaved};
ghost use Rattle.write_history.specs.World.{document_at};
ghost use Rattle.ide_world.specs.Drafted.{drafted_world};

use crate::draft::Draft;
use ide_text::{MAX_CHARS, Name};
use std::alloc::AllocError;
use write_history::{Change, MAX_ENTRIES, Refusal, is_lawful_path};

/// The most files that are ever made.
const MAX_FILES: usize = 65_536;

/// The most documents that are open at once.
const MAX_DOCUMENTS: u32 = 1_024;

/// Why a change is refused, if it is. Memory is asked for only where a step of the draft changes the document that is
/// to be closed.
pub(crate) fn refusal(draft: &Draft<'_>, change: &Change) -> Result<Option<Refusal>, AllocError>
    ensures value { IfOk result
        (λ refusal. refusal ≡ refusal_of (drafted_world draft.now) change.now) }
    ensures known { OnErr result (draft.now.steps ≢ []) }
{
    match change {
        Change::Create { path, text: _ } => Ok(create_refusal(draft, path)),
        Change::Write { path, text: _ } => Ok(conflict_refusal(draft, path)),
        Change::Delete { path } => Ok(conflict_refusal(draft, path)),
        Change::OpenDoc { path } => Ok(open_refusal(draft, path)),
        Change::Insert { path, at, text } => Ok(insert_refusal(
            draft,
            path,
            *at,
            text.as_text().len(),
        )),
        Change::Erase { path, from, to } => Ok(erase_refusal(draft, path, *from, *to)),
        Change::Commit { path } => Ok(closed_refusal(draft, path)),
        Change::Save { path } => Ok(closed_refusal(draft, path)),
        Change::CloseDoc { path } => close_refusal(draft, path),
        Change::Intake { file, stamp } => Ok(intake_refusal(draft, *file, *stamp)),
        Change::Move { path, to } => Ok(move_refusal(draft, path, to)),
    }
}

fn create_refusal(draft: &Draft<'_>, path: &Name) -> Option<Refusal>
    ensures { (text : List ℕ)
        → result ≡ refusal_of (drafted_world draft.now) (Create path.now text) }
{
    if !is_lawful_path(path) {
        return Some(Refusal::BadPath);
    }
    if draft.has_file_at(path) {
        return Some(Refusal::PathTaken);
    }
    if draft.made() >= MAX_FILES {
        return Some(Refusal::FilesFull);
    }
    fullness(draft)
}

/// Of a write and of a delete.
fn conflict_refusal(draft: &Draft<'_>, path: &Name) -> Option<Refusal>
    ensures write { (text : List ℕ)
        → result ≡ refusal_of (drafted_world draft.now) (Write path.now text) }
    ensures delete { result ≡ refusal_of (drafted_world draft.now) (Delete path.now) }
{
    if !draft.has_file_at(path) {
        return Some(Refusal::NoSuchFile);
    }
    if is_unsaved_at(draft, path) {
        return Some(Refusal::Conflict);
    }
    fullness(draft)
}

fn open_refusal(draft: &Draft<'_>, path: &Name) -> Option<Refusal>
    ensures { result ≡ refusal_of (drafted_world draft.now) (OpenDoc path.now) }
{
    if !draft.has_file_at(path) {
        return Some(Refusal::NoSuchFile);
    }
    if draft.summary_at(path).is_some() {
        return Some(Refusal::AlreadyOpen);
    }
    if draft.open_count() >= MAX_DOCUMENTS {
        return Some(Refusal::DocsFull);
    }
    fullness(draft)
}

fn insert_refusal(draft: &Draft<'_>, path: &Name, at: u32, count: u32) -> Option<Refusal>
    requires { count ≤ 1048576 }
    ensures { (text : List ℕ) → length text ≡ count
        → result ≡ refusal_of (drafted_world draft.now) (Insert path.now at text) }
{
    if !draft.has_file_at(path) {
        return Some(Refusal::NoSuchFile);
    }
    let Some(summary) = draft.summary_at(path) else {
        return Some(Refusal::NotOpen);
    };
    if at > summary.len {
        return Some(Refusal::BadRange {
            length: summary.len,
        });
    }
    if (summary.len + count) as usize > MAX_CHARS {
        return Some(Refusal::TextFull {
            count: summary.len + count,
        });
    }
    fullness(draft)
}

fn erase_refusal(draft: &Draft<'_>, path: &Name, from: u32, to: u32) -> Option<Refusal>
    ensures { result ≡ refusal_of (drafted_world draft.now) (Erase path.now from to) }
{
    if !draft.has_file_at(path) {
        return Some(Refusal::NoSuchFile);
    }
    let Some(summary) = draft.summary_at(path) else {
        return Some(Refusal::NotOpen);
    };
    if to > summary.len || from > to {
        return Some(Refusal::BadRange {
            length: summary.len,
        });
    }
    fullness(draft)
}

/// Of a commit and of a save.
fn closed_refusal(draft: &Draft<'_>, path: &Name) -> Option<Refusal>
    ensures commit { result ≡ refusal_of (drafted_world draft.now) (Commit path.now) }
    ensures save { result ≡ refusal_of (drafted_world draft.now) (Save path.now) }
{
    if !draft.has_file_at(path) {
        return Some(Refusal::NoSuchFile);
    }
    if draft.summary_at(path).is_none() {
        return Some(Refusal::NotOpen);
    }
    fullness(draft)
}

fn close_refusal(draft: &Draft<'_>, path: &Name) -> Result<Option<Refusal>, AllocError>
    ensures value { IfOk result
        (λ refusal. refusal ≡ refusal_of (drafted_world draft.now) (CloseDoc path.now)) }
    ensures known { OnErr result (draft.now.steps ≢ []) }
{
    let Some(id) = draft.id_of(path) else {
        return Ok(Some(Refusal::NoSuchFile));
    };
    let Some(summary) = draft.summary(id) else {
        return Ok(Some(Refusal::NotOpen));
    };
    if !summary.saved {
        return Ok(Some(Refusal::Unsaved));
    }
    if draft.is_uncommitted(id)? {
        return Ok(Some(Refusal::Uncommitted));
    }
    Ok(fullness(draft))
}

pub(crate) fn intake_refusal(draft: &Draft<'_>, file: u32, stamp: u64) -> Option<Refusal>
    ensures { result ≡ refusal_of (drafted_world draft.now) (Intake file stamp) }
{
    let Some(row) = draft.row(file) else {
        return Some(Refusal::NoSuchFile);
    };
    if stamp != row.stamp {
        return Some(Refusal::Stale {
            made: stamp,
            present: row.stamp,
        });
    }
    fullness(draft)
}

fn move_refusal(draft: &Draft<'_>, path: &Name, to: &Name) -> Option<Refusal>
    ensures { result ≡ refusal_of (drafted_world draft.now) (Move path.now to.now) }
{
    if !is_lawful_path(to) {
        return Some(Refusal::BadPath);
    }
    if !draft.has_file_at(path) {
        return Some(Refusal::NoSuchFile);
    }
    if draft.has_file_at(to) {
        return Some(Refusal::PathTaken);
    }
    fullness(draft)
}

/// Whether the file at a path has a document whose text it doesn't have.
fn is_unsaved_at(draft: &Draft<'_>, path: &Name) -> bool
    ensures { result ≡ is_unsaved (document_at (drafted_world draft.now) path.now) }
{
    match draft.summary_at(path) {
        Some(summary) => !summary.saved,
        None => false,
    }
}

/// The last reason to refuse any change.
fn fullness(draft: &Draft<'_>) -> Option<Refusal>
    ensures { result
        ≡ (if nat_le max_entries (drafted_world draft.now).entries then Some Refusal.HistoryFull
        else None) }
{
    if draft.entries() >= MAX_ENTRIES {
        Some(Refusal::HistoryFull)
    } else {
        None
    }
}
