//! Whether index data may go in.
ghost use Rattle.std.specs.Prelude.{IfOk};
ghost use Rattle.ide_world.specs.Task.{IsOfWorld};
ghost use Rattle.ide_calls.specs.Intake.{IsJudged, task_of_made};

use crate::entries::entries;
use ide_world::{Made, Ready, State, prepare_intake};
use std::alloc::{AllocError, Global};
use write_history::Refusal;

/// What may be done with the index data of a file.
#[derive(Drop)]
pub(crate) enum Judged {
    /// The file isn't live.
    Gone,
    /// The file has another stamp than the data.
    Stale { present: u64 },
    /// The history is full, with this many entries.
    Full { at: u64 },
    /// They may go in, behind this many entries.
    Prepared { at: u64, ready: Ready },
}

/// Makes the intake of data ready, or tells why it is refused.
pub(crate) fn judge(alloc: Global, state: &State, made: Made) -> Result<Judged, AllocError>
    requires { IsOfWorld state.now.world (task_of_made made) }
    ensures { IfOk result (IsJudged state.now.world made.file made.stamp) }
{
    let at = entries(state);
    match prepare_intake(alloc, state, made) {
        Ok(ready) => Ok(Judged::Prepared { at, ready }),
        Err(Refusal::NoSuchFile) => Ok(Judged::Gone),
        Err(Refusal::Stale { made: _, present }) => Ok(Judged::Stale { present }),
        Err(Refusal::HistoryFull) => Ok(Judged::Full { at }),
        Err(_) => Err(AllocError),
    }
}
