//! Edits are made ready, or refused.
ghost use Rattle.std.specs.Prelude.{◌≡◌, true, IfOk, IfErr};
ghost use Rattle.std.specs.List.{list_all};
ghost use Rattle.write_history.specs.Changes.{is_edit};
ghost use Rattle.ide_world.specs.Ready.{IsReadyFor, Makes};
ghost use Rattle.replay.specs.Steps.{IsEnterRefused};

use crate::refusal::EnterRefusal;
use ide_world::{Ready, State, prepare_group};
use std::alloc::Global;
use write_history::{Changes, Refusal};

/// Makes changes ready in a state, or refuses them by it.
pub(crate) fn edits_ready(
    alloc: Global,
    state: &State,
    changes: &Changes,
) -> Result<Ready, EnterRefusal>
    requires { list_all is_edit changes.now ≡ true }
    ensures ready { IfOk result (IsReadyFor state.now.world) }
    ensures makes { IfOk result (λ ready. Makes state.now.world ready changes.now) }
    ensures refused { IfErr result (IsEnterRefused state.now.world changes.now) }
{
    match prepare_group(alloc, state, changes.as_slice()) {
        Ok(ready) => Ok(ready),
        Err(refusal) if refusal.why == Refusal::OutOfMemory => Err(EnterRefusal::OutOfMemory),
        Err(refusal) => Err(EnterRefusal::Refused {
            place: refusal.place,
            why: refusal.why,
        }),
    }
}
