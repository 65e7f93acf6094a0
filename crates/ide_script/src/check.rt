//! Judging a transcript.
ghost use Rattle.std.specs.Prelude.{◌≡◌, ◌≢◌, ◌≤◌, ◌∷◌, IfOk, OnErr, OnOk, Err};
ghost use Rattle.std.specs.Io.KnownBytes.{append_known};
ghost use Rattle.command_line.specs.Request.{max_workers};
ghost use Rattle.ide_io.specs.Asks.{AsksEach, AsksFront, AsksSome};
ghost use Rattle.ide_io.specs.Fault.{HasFault};
ghost use Rattle.ide_io.specs.Known.{TakesAtMost, TakesPrefix};
ghost use Rattle.script_lang.specs.Lines.{max_bytes};
ghost use Rattle.transcripts.specs.Loads.{paths_of};
ghost use Rattle.ide_script.specs.Check.{CheckEnds, JudgesFile, VerdictEnds, line_of, status_of};
ghost use Rattle.ide_script.specs.Outside.{read, asked, written};
ghost use Rattle.ide_script.specs.Run.{TellsEndOnce};

use crate::Status;
use crate::reading::read_script;
use ide_io::laws::trees_are_asked_in_turn;
use ide_io::{Failed, ReadFileError, Sink, Source, Tree, write_all};
use ide_text::Name;
use script_lang::Script;
use std::alloc::Global;
use transcript_check::{Verdict, VerdictRefusal, verdict};

/// Judges the transcript at a path by the source's script with so many workers, and writes what is found.
pub(crate) fn run_check<S: Source, T: Tree, K: Sink>(
    alloc: Global,
    path: &Name,
    workers: u32,
    source: &mut S,
    tree: &mut T,
    out: &mut K,
) -> Status
    requires { workers ≤ max_workers }
    ensures ends { CheckEnds (read S.Source source.old source.new) (asked T.Tree tree.old tree.new)
        (written K.Sink out.old out.new) path.now workers result }
    ensures within { result ≢ Status.ScriptTooLong
        → TakesAtMost max_bytes (S.left source.old) (S.left source.new) }
    ensures end_once { TellsEndOnce (S.ends source.old) (S.ends source.new) }
    ensures silent { result ≢ Status.Done → result ≢ Status.Rejected → result ≢ Status.SinkFault
        → out.new ≡ out.old }
    ensures files { T.files tree.new ≡ T.files tree.old }
    ensures source_quiet { result ≢ Status.SourceFault → S.faults source.new ≡ S.faults source.old }
    ensures tree_quiet { result ≢ Status.TreeFault → T.faults tree.new ≡ T.faults tree.old }
    ensures sink_quiet { result ≢ Status.SinkFault → K.faults out.new ≡ K.faults out.old }
{
    let script = match read_script(alloc, source) {
        Ok(script) => script,
        Err(status) => return status,
    };
    match judge(alloc, &script, workers, tree, path) {
        Ok(verdict) => tell(verdict, out),
        Err(VerdictRefusal::TreeFault) => Status::TreeFault,
        Err(VerdictRefusal::OutOfMemory) => Status::OutOfMemory,
    }
}

/// Reads the transcript at a path, and then judges it by a script with so many workers.
fn judge<T: Tree>(
    alloc: Global,
    script: &Script,
    workers: u32,
    tree: &mut T,
    path: &Name,
) -> Result<Verdict, VerdictRefusal>
    requires { workers ≤ max_workers }
    ensures judges { IfOk result (JudgesFile (T.files tree.old) script.now workers path.now) }
    ensures asks { AsksFront T.asks tree.old (path.now ∷ paths_of script.now.prelude) tree.new }
    ensures asks_each { OnOk result
        (AsksEach T.asks tree.old (path.now ∷ paths_of script.now.prelude) tree.new) }
    ensures asks_some { result ≡ Err VerdictRefusal.TreeFault
        → AsksSome T.asks tree.old (path.now ∷ paths_of script.now.prelude) tree.new }
    ensures fault { result ≡ Err VerdictRefusal.TreeFault
        → HasFault (T.faults tree.old) (T.faults tree.new) }
    ensures files { T.files tree.new ≡ T.files tree.old }
    ensures quiet { result ≢ Err VerdictRefusal.TreeFault → T.faults tree.new ≡ T.faults tree.old }
{
    trees_are_asked_in_turn::<T>();
    let bytes = match tree.read_file(alloc, path) {
        Ok(bytes) => bytes,
        Err(ReadFileError::Failed) => return Err(VerdictRefusal::TreeFault),
        Err(ReadFileError::OutOfMemory) => return Err(VerdictRefusal::OutOfMemory),
    };
    verdict(alloc, script, workers, tree, &bytes)
}

/// Tells a verdict.
fn tell<K: Sink>(verdict: Verdict, out: &mut K) -> Status
    ensures ends { VerdictEnds (written K.Sink out.old out.new) verdict result }
    ensures quiet { result ≢ Status.SinkFault → K.faults out.new ≡ K.faults out.old }
{
    match write_verdict(verdict, out) {
        Ok(()) => status_of(verdict),
        Err(_) => Status::SinkFault,
    }
}

/// The status of a verdict.
fn status_of(verdict: Verdict) -> Status
    ensures { result ≡ status_of verdict }
{
    match verdict {
        Verdict::Good => Status::Done,
        Verdict::Bad => Status::Rejected,
    }
}

/// Writes the line of a verdict.
fn write_verdict<K: Sink>(verdict: Verdict, out: &mut K) -> Result<(), Failed>
    ensures ok { OnOk result (K.taken out.new ≡ append_known (K.taken out.old) (line_of verdict)) }
    ensures front { OnErr result
        (TakesPrefix (K.taken out.old) (K.taken out.new) (line_of verdict)) }
    ensures fault { OnErr result (HasFault (K.faults out.old) (K.faults out.new)) }
    ensures quiet { OnOk result (K.faults out.new ≡ K.faults out.old) }
{
    match verdict {
        Verdict::Good => write_all(out, b"good\n"),
        Verdict::Bad => write_all(out, b"bad\n"),
    }
}
