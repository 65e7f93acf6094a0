//! The intake of a file as it is: index data are made from its present content, at its present stamp.
ghost use Rattle.std.specs.Prelude.{◌≡◌, IfOk, IfErr};
ghost use Rattle.ide_world.specs.Ready.{IsReadyFor, Makes};
ghost use Rattle.replay.specs.Steps.{IsIntakeRefused, intake_of};

use crate::refusal::IntakeRefusal;
use dumb_mode::{FileKind, kind_of};
use ide_world::{Job, Ready, State, make, prepare_intake};
use std::alloc::Global;
use write_history::MAX_ENTRIES;

/// Makes the intake of a live file at its stamp ready, or tells why it is refused, before it asks for memory.
pub(crate) fn intake_ready(alloc: Global, state: &State, file: u32) -> Result<Ready, IntakeRefusal>
    ensures ready { IfOk result (IsReadyFor state.now.world) }
    ensures makes { IfOk result
        (λ ready. Makes state.now.world ready (intake_of state.now.world file)) }
    ensures refused { IfErr result (IsIntakeRefused state.now.world file) }
{
    let Some(row) = state.row(file) else {
        return Err(IntakeRefusal::NoSuchFile);
    };
    if state.entries() >= MAX_ENTRIES {
        return Err(IntakeRefusal::HistoryFull);
    }
    // Of a file without a kind nothing is indexed, whatever data are made of it.
    let kind = kind_of(&row.path).unwrap_or(FileKind::Properties);
    let job = Job {
        file,
        kind,
        stamp: row.stamp,
        text: row.content.share()?,
    };
    let made = make(alloc, job)?;
    match prepare_intake(alloc, state, made) {
        Ok(ready) => Ok(ready),
        Err(_) => Err(IntakeRefusal::OutOfMemory),
    }
}
