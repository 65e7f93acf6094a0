//! Playing a script over a tree, from which its loads are read.
ghost use Rattle.std.specs.Prelude.{◌≡◌, ◌≢◌, ◌≤◌, ◌++◌, IfOk, OnOk, Err, option_to_list};
ghost use Rattle.command_line.specs.Request.{max_workers};
ghost use Rattle.ide_io.specs.Asks.{AsksEach, AsksFront, AsksSome};
ghost use Rattle.ide_io.specs.Fault.{HasFault};
ghost use Rattle.transcripts.specs.Loads.{paths_of};
ghost use Rattle.transcripts.specs.Play.{Plays, ended_of};

use crate::PlayRefusal;
use crate::reading::read_loads_of;
use crate::store_file::read_store;
use action_lock::Gate;
use ide_io::Tree;
use ide_io::laws::trees_are_asked_in_turn;
use ide_text::Name;
use index_store::Store;
use script_lang::Script;
use std::alloc::Global;
use std::sync::Wait;
use std::thread::Threads;
use transcripts::Played;
use transcripts::laws::a_run_alone_is_serial;

/// Plays a script from the empty workspace: the prelude, then its lanes and so many workers, each on a thread of its own
/// beside the others, then the last section. What the loads ask for is read before all else; a tree that fails ends it. A
/// load of an unlawful path asks for nothing. Index data that the store has aren't made anew. May block.
pub fn play<R: Threads + Wait + Sync, T: Tree, G: Gate + Sync>(
    rt: &R,
    alloc: Global,
    script: &Script,
    workers: u32,
    store: Store,
    tree: &mut T,
    gate: &G,
) -> Result<Played, PlayRefusal>
    requires few { workers ≤ max_workers }
    ensures plays { IfOk result
        (λ played. Plays (T.files tree.old) script.now workers played.workers.items
        (ended_of played)) }
    // Which files the tree was asked for: the first of those that the loads ask for, each once, in their order and no other; all of
    // them, or those up to the one at which it failed.
    ensures asks { AsksFront T.asks tree.old (paths_of script.now.prelude) tree.new }
    ensures asks_each { OnOk result
        (AsksEach T.asks tree.old (paths_of script.now.prelude) tree.new) }
    ensures asks_some { result ≡ Err PlayRefusal.TreeFault
        → AsksSome T.asks tree.old (paths_of script.now.prelude) tree.new }
    ensures fault { result ≡ Err PlayRefusal.TreeFault
        → HasFault (T.faults tree.old) (T.faults tree.new) }
    ensures files { T.files tree.new ≡ T.files tree.old }
    ensures quiet { result ≢ Err PlayRefusal.TreeFault → T.faults tree.new ≡ T.faults tree.old }
{
    a_run_alone_is_serial();
    let loads = read_loads_of(alloc, script, tree)?;
    Ok(playing::play(rt, alloc, script, &loads, workers, store, gate)?)
}

/// The same with the store at a path, where one is named: its file is read first. May block.
pub(crate) fn play_stored<R: Threads + Wait + Sync, T: Tree, G: Gate + Sync>(
    rt: &R,
    alloc: Global,
    script: &Script,
    workers: u32,
    path: &Option<Name>,
    tree: &mut T,
    gate: &G,
) -> Result<Played, PlayRefusal>
    requires few { workers ≤ max_workers }
    ensures plays { IfOk result
        (λ played. Plays (T.files tree.old) script.now workers played.workers.items
        (ended_of played)) }
    ensures asks { AsksFront T.asks tree.old
        (option_to_list path.now ++ paths_of script.now.prelude) tree.new }
    ensures asks_each { OnOk result
        (AsksEach T.asks tree.old
        (option_to_list path.now ++ paths_of script.now.prelude) tree.new) }
    ensures asks_some { result ≡ Err PlayRefusal.TreeFault
        → AsksSome T.asks tree.old
        (option_to_list path.now ++ paths_of script.now.prelude) tree.new }
    ensures fault { result ≡ Err PlayRefusal.TreeFault
        → HasFault (T.faults tree.old) (T.faults tree.new) }
    ensures files { T.files tree.new ≡ T.files tree.old }
    ensures quiet { result ≢ Err PlayRefusal.TreeFault → T.faults tree.new ≡ T.faults tree.old }
{
    trees_are_asked_in_turn::<T>();
    let store = read_store(alloc, path, tree)?;
    play(rt, alloc, script, workers, store, tree, gate)
}
