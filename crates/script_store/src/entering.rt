//! Changes go in where the rules let them.
ghost use Rattle.std.specs.Prelude.{◌≡◌, true, OnOk};
ghost use Rattle.std.specs.List.{list_all};
ghost use Rattle.write_history.specs.Changes.{is_edit};
ghost use Rattle.script_store.specs.Along.{HasEntered};

use history_laws::laws::histories_go_on;
use replay::{EnterRefusal, Replay};
use std::alloc::{AllocError, Global};
use write_history::Changes;

/// Lets changes in together, as one entry; where one of them is refused, nothing changes.
pub(crate) fn enter(alloc: Global, replay: &mut Replay, changes: &Changes) -> Result<(), AllocError>
    requires { list_all is_edit changes.now ≡ true }
    ensures { OnOk result (HasEntered changes.now replay.old replay.new) }
{
    histories_go_on();
    match replay.enter(alloc, changes) {
        Ok(()) => Ok(()),
        Err(EnterRefusal::Refused { place: _, why: _ }) => Ok(()),
        Err(EnterRefusal::OutOfMemory) => Err(AllocError),
    }
}
