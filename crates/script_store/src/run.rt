//! Going through a whole script on one thread, and the store of the world where it ends.
ghost use Rattle.std.specs.Prelude.{◌≡◌, IfOk, OnOk};
ghost use Rattle.write_history.specs.Fold.{fold};
ghost use Rattle.write_history.specs.World.{empty_world};
ghost use Rattle.transcripts.specs.Serial.{run_of};
ghost use Rattle.script_store.specs.Indexed.{entries_of};

use crate::along::{go_along, go_lanes};
use crate::keeping::kept_of;
use index_store::Store;
use replay::Replay;
use script_lang::Script;
use std::alloc::{AllocError, Global};
use transcripts::Loaded;

/// The store of the world that a script leads to on one thread, in the order of its lines, lanes one after another, where
/// this was read for its loads. It costs what the script's changes do, one making of index data for each file that a settle
/// takes in, and one for each that is kept; questions cost nothing.
pub fn store_of(alloc: Global, script: &Script, loads: &[Loaded]) -> Result<Store, AllocError>
    ensures { IfOk result
        (λ store. store ≡ entries_of (fold (run_of loads.now script.now).history)) }
{
    let mut replay = Replay::empty(alloc);
    let store = store_behind(alloc, &mut replay, script, loads);
    drop(replay);
    store
}

/// The store of the world that a script leads to, from a workspace without a file, and without an entry.
fn store_behind(
    alloc: Global,
    replay: &mut Replay,
    script: &Script,
    loads: &[Loaded],
) -> Result<Store, AllocError>
    requires { replay.old ≡ empty_world }
    ensures { IfOk result
        (λ store. store ≡ entries_of (fold (run_of loads.now script.now).history)) }
{
    go_through(alloc, replay, script, loads)?;
    kept_of(alloc, replay)
}

/// Goes through a whole script, from a workspace without a file, and without an entry.
fn go_through(
    alloc: Global,
    replay: &mut Replay,
    script: &Script,
    loads: &[Loaded],
) -> Result<(), AllocError>
    requires { replay.old ≡ empty_world }
    ensures { OnOk result (replay.new ≡ fold (run_of loads.now script.now).history) }
{
    go_along(alloc, replay, script.prelude(), loads)?;
    go_lanes(alloc, replay, script)?;
    go_along(alloc, replay, script.last(), &[])
}
