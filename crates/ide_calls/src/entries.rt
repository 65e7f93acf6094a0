//! How many entries led to a state.
ghost use Rattle.std.specs.Prelude.{◌≡◌, ◌≤◌};
ghost use Rattle.write_history.specs.Effect.{max_entries};

use ide_world::State;

/// The number of entries, 1,048,576 at most.
pub(crate) fn entries(state: &State) -> u64
    ensures value { result ≡ state.now.world.entries }
    ensures few { result ≤ max_entries }
{
    // Its contract says that the world is sound, so within its limits.
    let _made = state.made();
    state.entries()
}
