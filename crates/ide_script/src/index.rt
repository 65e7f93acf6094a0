//! Writing the store of a script's last world.
ghost use Rattle.std.specs.Prelude.{◌≡◌, ◌≢◌, IfOk, OnOk, Err};
ghost use Rattle.ide_io.specs.Asks.{AsksEach, AsksFront, AsksSome};
ghost use Rattle.ide_io.specs.Fault.{HasFault};
ghost use Rattle.ide_io.specs.Known.{TakesAtMost};
ghost use Rattle.script_lang.specs.Lines.{max_bytes};
ghost use Rattle.transcripts.specs.Loads.{paths_of};
ghost use Rattle.ide_script.specs.Index.{IndexEnds, IsStoreOf};
ghost use Rattle.ide_script.specs.Outside.{read, asked, written};
ghost use Rattle.ide_script.specs.Run.{TellsEndOnce};

use crate::reading::{read_loads_of, read_script};
use crate::writing::write_bytes;
use crate::{PlayRefusal, Status};
use ide_io::{Sink, Source, Tree};
use script_lang::Script;
use script_store::store_of;
use std::alloc::Global;

/// Writes the store of the last world that the source's script leads to on one thread.
pub(crate) fn run_index<S: Source, T: Tree, K: Sink>(
    alloc: Global,
    source: &mut S,
    tree: &mut T,
    out: &mut K,
) -> Status
    ensures ends { IndexEnds (read S.Source source.old source.new) (asked T.Tree tree.old tree.new)
        (written K.Sink out.old out.new) result }
    ensures within { result ≢ Status.ScriptTooLong
        → TakesAtMost max_bytes (S.left source.old) (S.left source.new) }
    ensures end_once { TellsEndOnce (S.ends source.old) (S.ends source.new) }
    ensures silent { result ≢ Status.Done → result ≢ Status.SinkFault → out.new ≡ out.old }
    ensures files { T.files tree.new ≡ T.files tree.old }
    ensures source_quiet { result ≢ Status.SourceFault → S.faults source.new ≡ S.faults source.old }
    ensures tree_quiet { result ≢ Status.TreeFault → T.faults tree.new ≡ T.faults tree.old }
    ensures sink_quiet { result ≢ Status.SinkFault → K.faults out.new ≡ K.faults out.old }
{
    let script = match read_script(alloc, source) {
        Ok(script) => script,
        Err(status) => return status,
    };
    match store_bytes(alloc, &script, tree) {
        Ok(bytes) => write_bytes(&bytes, out),
        Err(PlayRefusal::TreeFault) => Status::TreeFault,
        Err(PlayRefusal::OutOfMemory) => Status::OutOfMemory,
    }
}

/// The bytes of the store of the last world that a script leads to over a tree.
fn store_bytes<T: Tree>(
    alloc: Global,
    script: &Script,
    tree: &mut T,
) -> Result<Vec<u8>, PlayRefusal>
    ensures is { IfOk result (λ bytes. IsStoreOf (T.files tree.old) script.now bytes.items) }
    ensures asks { AsksFront T.asks tree.old (paths_of script.now.prelude) tree.new }
    ensures asks_each { OnOk result
        (AsksEach T.asks tree.old (paths_of script.now.prelude) tree.new) }
    ensures asks_some { result ≡ Err PlayRefusal.TreeFault
        → AsksSome T.asks tree.old (paths_of script.now.prelude) tree.new }
    ensures fault { result ≡ Err PlayRefusal.TreeFault
        → HasFault (T.faults tree.old) (T.faults tree.new) }
    ensures files { T.files tree.new ≡ T.files tree.old }
    ensures quiet { result ≢ Err PlayRefusal.TreeFault → T.faults tree.new ≡ T.faults tree.old }
{
    let loads = read_loads_of(alloc, script, tree)?;
    let store = store_of(alloc, script, &loads)?;
    Ok(store.bytes()?)
}
