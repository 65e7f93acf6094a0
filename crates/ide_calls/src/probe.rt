//! Where a worker begins to look for an unready file.
ghost use Rattle.std.specs.Prelude.{◌≡◌};
ghost use Rattle.ide_calls.specs.Choice.{probe_in, probe_from};

use crate::entries::entries;
use ide_world::State;

/// The id from which the worker with this number looks for an unready file, among those from the lowest unready one's on.
/// Workers read after entries of their own, so at different lengths of the history, whose offsets lie far from each other: they
/// seldom take up the same file.
pub(crate) fn probe_in(state: &State, seat: u32) -> u32
    ensures { result ≡ probe_in state.now.world seat }
{
    match state.lowest_unready() {
        Some(lowest) => probe_from(state, seat, lowest),
        None => 0,
    }
}

/// The same where the id of the lowest unready file is known.
fn probe_from(state: &State, seat: u32, lowest: u32) -> u32
    ensures { result ≡ probe_from state.now.world seat lowest }
{
    let ids = (state.made() as u64).saturating_sub(u64::from(lowest)) + 1;
    let spread = entries(state) * 40_503 % 65_536 * ids / 65_536;
    let offset = (spread + u64::from(seat)) % ids;
    (u64::from(lowest) + offset) as u32
}
