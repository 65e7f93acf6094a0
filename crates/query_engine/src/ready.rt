//! Whether every file is ready.
ghost use Rattle.std.specs.Prelude.{◌≡◌, None, IfErr, IsSomeAnd, OnOk};
ghost use Rattle.write_history.specs.World.{lowest_unready};

use crate::answer::AskRefusal;
use ide_world::State;

/// Gives up where a file is unready.
pub(crate) fn ready(state: &State) -> Result<(), AskRefusal>
    ensures smart { OnOk result (lowest_unready state.now.world ≡ None) }
    ensures dumb { IfErr result
        (λ refusal. IsSomeAnd (lowest_unready state.now.world)
        (λ file. refusal ≡ AskRefusal.NotReady file)) }
{
    match state.lowest_unready() {
        Some(file) => Err(AskRefusal::NotReady { file }),
        None => Ok(()),
    }
}
