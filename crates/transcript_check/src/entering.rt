//! Entries go in where they are printed so.
ghost use Rattle.std.specs.Prelude.{◌≡◌, true, IfOk};
ghost use Rattle.std.specs.List.{list_all};
ghost use Rattle.write_history.specs.Changes.{is_edit};
ghost use Rattle.replay.specs.Steps.{intake_of};
ghost use Rattle.transcript_check.specs.Here.{HasGoneIn};

use crate::block::Block;
use replay::{EnterRefusal, IntakeRefusal, Replay};
use std::alloc::{AllocError, Global};
use write_history::{Change, Changes, Entry, line_of};

/// Lets the changes of an entry in as the one with this text, or finds that they don't go in so: one is refused, or the entry
/// is printed otherwise. It costs the entry and what its changes do.
pub(crate) fn enter_so(
    alloc: Global,
    replay: &mut Replay,
    entry: &Entry,
    text: &Block<'_>,
) -> Result<bool, AllocError>
    requires { list_all is_edit entry.now.changes ≡ true }
    ensures { IfOk result
        (HasGoneIn replay.old replay.new entry.now.seat entry.now.line entry.now.changes text.now) }
{
    let wanted = line_of(alloc, replay.entries() + 1, entry)?;
    if !text.is(&wanted) {
        return Ok(false);
    }
    match replay.enter(alloc, &entry.changes) {
        Ok(()) => Ok(true),
        Err(EnterRefusal::Refused { .. }) => Ok(false),
        Err(EnterRefusal::OutOfMemory) => Err(AllocError),
    }
}

/// Takes a file in at its present stamp as the entry with this text, or finds that it doesn't go in so. It costs the text of
/// the file.
pub(crate) fn take_so(
    alloc: Global,
    replay: &mut Replay,
    seat: u32,
    line: u32,
    file: u32,
    text: &Block<'_>,
) -> Result<bool, AllocError>
    ensures { IfOk result
        (HasGoneIn replay.old replay.new seat line (intake_of replay.old file) text.now) }
{
    let Some(stamp) = replay.stamp_of(file) else {
        return Ok(false);
    };
    let entry = Entry {
        seat,
        line,
        changes: Changes::one(Change::Intake { file, stamp }),
    };
    let wanted = line_of(alloc, replay.entries() + 1, &entry);
    drop(entry);
    if !text.is(&wanted?) {
        return Ok(false);
    }
    match replay.take_in(alloc, file) {
        Ok(()) => Ok(true),
        Err(IntakeRefusal::OutOfMemory) => Err(AllocError),
        Err(_) => Ok(false),
    }
}
