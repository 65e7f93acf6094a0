//! Reading a script, and what its loads ask for.
ghost use Rattle.std.specs.Prelude.{◌≡◌, ◌≢◌, IfOk, IfErr, OnOk, Err};
ghost use Rattle.ide_io.specs.Asks.{AsksEach, AsksFront, AsksSome};
ghost use Rattle.ide_io.specs.Fault.{HasFault};
ghost use Rattle.ide_io.specs.Known.{TakesAtMost};
ghost use Rattle.script_lang.specs.Lines.{max_bytes};
ghost use Rattle.transcripts.specs.Loads.{AreLoadsOf, paths_of};
ghost use Rattle.ide_script.specs.Outside.{read};
ghost use Rattle.ide_script.specs.Reading.{GivesScript, ReadStops};
ghost use Rattle.ide_script.specs.Run.{TellsEndOnce};

use crate::{PlayRefusal, Status};
use ide_io::{ReadAllError, Source, Tree, read_all};
use script_lang::{MAX_BYTES, Script, ScriptRefusal, parse};
use std::alloc::Global;
use transcripts::{LoadRefusal, Loaded, read_loads};

/// The script that the source gives.
pub(crate) fn read_script<S: Source>(alloc: Global, source: &mut S) -> Result<Script, Status>
    ensures ok { IfOk result (λ script. GivesScript (read S.Source source.old source.new) script) }
    ensures err { IfErr result (ReadStops (read S.Source source.old source.new)) }
    ensures within { result ≢ Err Status.ScriptTooLong
        → TakesAtMost max_bytes (S.left source.old) (S.left source.new) }
    ensures end_once { TellsEndOnce (S.ends source.old) (S.ends source.new) }
    ensures quiet { result ≢ Err Status.SourceFault → S.faults source.new ≡ S.faults source.old }
{
    let bytes = match read_all(alloc, source, MAX_BYTES) {
        Ok(bytes) => bytes,
        Err(ReadAllError::Failed) => return Err(Status::SourceFault),
        Err(ReadAllError::TooLong) => return Err(Status::ScriptTooLong),
        Err(ReadAllError::OutOfMemory) => return Err(Status::OutOfMemory),
    };
    match parse(alloc, &bytes) {
        Ok(script) => Ok(script),
        Err(ScriptRefusal::BadLine { number }) => Err(Status::BadScript { line: number }),
        Err(ScriptRefusal::OutOfMemory) => Err(Status::OutOfMemory),
    }
}

/// What the tree gives for the loads of a script's prelude, line by line.
pub(crate) fn read_loads_of<T: Tree>(
    alloc: Global,
    script: &Script,
    tree: &mut T,
) -> Result<Vec<Loaded>, PlayRefusal>
    ensures loads { IfOk result
        (λ loads. AreLoadsOf (T.files tree.old) script.now.prelude loads.items) }
    ensures asks { AsksFront T.asks tree.old (paths_of script.now.prelude) tree.new }
    ensures asks_each { OnOk result
        (AsksEach T.asks tree.old (paths_of script.now.prelude) tree.new) }
    ensures asks_some { result ≡ Err PlayRefusal.TreeFault
        → AsksSome T.asks tree.old (paths_of script.now.prelude) tree.new }
    ensures fault { result ≡ Err PlayRefusal.TreeFault
        → HasFault (T.faults tree.old) (T.faults tree.new) }
    ensures files { T.files tree.new ≡ T.files tree.old }
    ensures quiet { result ≢ Err PlayRefusal.TreeFault → T.faults tree.new ≡ T.faults tree.old }
{
    match read_loads(alloc, script.prelude(), tree) {
        Ok(loads) => Ok(loads),
        Err(LoadRefusal::TreeFault) => Err(PlayRefusal::TreeFault),
        Err(LoadRefusal::OutOfMemory) => Err(PlayRefusal::OutOfMemory),
    }
}
