//! The whole program, over any source, tree and sink.
ghost use Rattle.std.specs.Prelude.{◌≡◌, ◌≢◌, ◌<◌, ◌≤◌, Some, length, map, string_bytes, IfOk};
ghost use Rattle.ide_io.specs.Known.{TakesAtMost};
ghost use Rattle.demo.specs.Script.{demo_bytes};
ghost use Rattle.script_lang.specs.Grammar.{IsScript};
ghost use Rattle.script_lang.specs.Lines.{max_bytes};
ghost use Rattle.command_line.specs.Request.{request_of, IsInRange, max_workers, max_files, max_edits};
ghost use Rattle.transcripts.specs.Play.{ended_of};
ghost use Rattle.transcripts.specs.Transcript.{transcript_of, summary_of};
ghost use Rattle.ide_script.specs.Outside.{read, asked, written};
ghost use Rattle.ide_script.specs.Run.{RunEnds, PlayEnds, DemoEnds, TellsEndOnce, PlaysDemo, AsksNothing};
ghost use Rattle.ide_script.specs.Writing.{WriteEnds};

use crate::check::run_check;
use crate::index::run_index;
use crate::over_tree::play_stored;
use crate::reading::read_script;
use crate::writing::write_bytes;
use crate::{PlayRefusal, Status};
use command_line::{Request, WordsRefusal, request_of};
use demo::demo_script;
use demo_runs::agree::demo_runs_agree;
use demo_runs::laws::{a_demo_is_lawful, no_demo_is_refused};
use ide_io::{Sink, Source, Tree};
use ide_text::Name;
use index_store::Store;
use playing::LaneGate;
use script_lang::{Script, ScriptRefusal, parse};
use std::alloc::{AllocError, Global};
use std::sync::Wait;
use std::thread::Threads;
use transcripts::{Played, summary, transcript};

/// Runs the program. The words begin with its name. `play` takes its script from the source, a store of index data, where
/// one is named, and what the script's loads ask for from the tree, and writes the transcript; `demo` writes the summary of
/// a script of its own; `check` takes the script from the source, a transcript and what the loads ask for from the tree, and
/// writes whether it is one of the script; `index` takes the script and what its loads ask for so, and writes the store of
/// its last world. Nothing is written but where the run ends with `Done`, `Rejected` or `SinkFault`. May block.
pub fn run_ide<R: Threads + Wait + Sync, S: Source, T: Tree, K: Sink>(
    rt: &R,
    alloc: Global,
    words: &[String],
    script: &mut S,
    tree: &mut T,
    out: &mut K,
) -> Status
    requires { 0 < length words.now }

    // When each answer comes, by what the words ask for, and what was read and written then.
    ensures ends { RunEnds (read S.Source script.old script.new) (asked T.Tree tree.old tree.new)
        (written K.Sink out.old out.new) (request_of (map string_bytes words.now)) result }

    // How much is read: at most one byte past the longest script, and nothing after the end; nothing where the words are faulty or ask for `demo`.
    ensures within { result ≢ Status.ScriptTooLong
        → TakesAtMost max_bytes (S.left script.old) (S.left script.new) }
    ensures end_once { TellsEndOnce (S.ends script.old) (S.ends script.new) }
    ensures unread { AsksNothing (request_of (map string_bytes words.now))
        → (script.new ≡ script.old) × (tree.new ≡ tree.old) }

    // What stays the same: nothing is written before the run is known to end so, and no fault is met but that which is told.
    ensures silent { result ≢ Status.Done → result ≢ Status.Rejected → result ≢ Status.SinkFault
        → out.new ≡ out.old }
    ensures files { T.files tree.new ≡ T.files tree.old }
    ensures source_quiet { result ≢ Status.SourceFault → S.faults script.new ≡ S.faults script.old }
    ensures tree_quiet { result ≢ Status.TreeFault → T.faults tree.new ≡ T.faults tree.old }
    ensures sink_quiet { result ≢ Status.SinkFault → K.faults out.new ≡ K.faults out.old }
{
    match request_of(alloc, words) {
        Ok(request) => run_request(rt, alloc, &request, script, tree, out),
        Err(WordsRefusal::Usage) => Status::Usage,
        Err(WordsRefusal::OutOfMemory) => Status::OutOfMemory,
    }
}

/// Does what is asked for. May block.
fn run_request<R: Threads + Wait + Sync, S: Source, T: Tree, K: Sink>(
    rt: &R,
    alloc: Global,
    request: &Request,
    script: &mut S,
    tree: &mut T,
    out: &mut K,
) -> Status
    requires { IsInRange request.now }
    ensures ends { RunEnds (read S.Source script.old script.new) (asked T.Tree tree.old tree.new)
        (written K.Sink out.old out.new) (Some request.now) result }
    ensures within { result ≢ Status.ScriptTooLong
        → TakesAtMost max_bytes (S.left script.old) (S.left script.new) }
    ensures end_once { TellsEndOnce (S.ends script.old) (S.ends script.new) }
    ensures unread { AsksNothing (Some request.now)
        → (script.new ≡ script.old) × (tree.new ≡ tree.old) }
    ensures silent { result ≢ Status.Done → result ≢ Status.Rejected → result ≢ Status.SinkFault
        → out.new ≡ out.old }
    ensures files { T.files tree.new ≡ T.files tree.old }
    ensures source_quiet { result ≢ Status.SourceFault → S.faults script.new ≡ S.faults script.old }
    ensures tree_quiet { result ≢ Status.TreeFault → T.faults tree.new ≡ T.faults tree.old }
    ensures sink_quiet { result ≢ Status.SinkFault → K.faults out.new ≡ K.faults out.old }
{
    match request {
        Request::Play { workers, store } => run_play(rt, alloc, *workers, store, script, tree, out),
        Request::Demo {
            seed,
            files,
            edits,
            workers,
        } => run_demo(rt, alloc, *seed, *files, *edits, *workers, out),
        Request::Check { path, workers } => run_check(alloc, path, *workers, script, tree, out),
        Request::Index => run_index(alloc, script, tree, out),
    }
}

/// Plays the source's script with so many workers and the store at a path, where one is named, and writes its transcript.
/// May block.
fn run_play<R: Threads + Wait + Sync, S: Source, T: Tree, K: Sink>(
    rt: &R,
    alloc: Global,
    workers: u32,
    store: &Option<Name>,
    source: &mut S,
    tree: &mut T,
    out: &mut K,
) -> Status
    requires { workers ≤ max_workers }
    ensures ends { PlayEnds (read S.Source source.old source.new) (asked T.Tree tree.old tree.new)
        (written K.Sink out.old out.new) workers store.now result }
    ensures within { result ≢ Status.ScriptTooLong
        → TakesAtMost max_bytes (S.left source.old) (S.left source.new) }
    ensures end_once { TellsEndOnce (S.ends source.old) (S.ends source.new) }
    ensures silent { result ≢ Status.Done → result ≢ Status.SinkFault → out.new ≡ out.old }
    ensures files { T.files tree.new ≡ T.files tree.old }
    ensures source_quiet { result ≢ Status.SourceFault → S.faults source.new ≡ S.faults source.old }
    ensures tree_quiet { result ≢ Status.TreeFault → T.faults tree.new ≡ T.faults tree.old }
    ensures sink_quiet { result ≢ Status.SinkFault → K.faults out.new ≡ K.faults out.old }
{
    let script = match read_script(alloc, source) {
        Ok(script) => script,
        Err(status) => return status,
    };
    let gate = LaneGate::new(rt, &script);
    match play_stored(rt, alloc, &script, workers, store, tree, &gate) {
        Ok(played) => write_transcript(alloc, &played, out),
        Err(PlayRefusal::TreeFault) => Status::TreeFault,
        Err(PlayRefusal::OutOfMemory) => Status::OutOfMemory,
    }
}

/// Writes the transcript of a run.
fn write_transcript<K: Sink>(alloc: Global, played: &Played, out: &mut K) -> Status
    ensures ends { WriteEnds (written K.Sink out.old out.new)
        (transcript_of (ended_of played.now)) result }
    ensures quiet { result ≢ Status.SinkFault → K.faults out.new ≡ K.faults out.old }
{
    match transcript(alloc, played) {
        Ok(bytes) => write_bytes(&bytes, out),
        Err(_) => Status::OutOfMemory,
    }
}

/// Plays the script of a demo with so many workers, and writes its summary. May block.
fn run_demo<R: Threads + Wait + Sync, K: Sink>(
    rt: &R,
    alloc: Global,
    seed: u32,
    files: u32,
    edits: u32,
    workers: u32,
    out: &mut K,
) -> Status
    requires { IsInRange (Request.Demo seed files edits workers) }
    ensures ends { DemoEnds (written K.Sink out.old out.new) seed files edits workers result }
    ensures silent { result ≢ Status.Done → result ≢ Status.SinkFault → out.new ≡ out.old }
    ensures quiet { result ≢ Status.SinkFault → K.faults out.new ≡ K.faults out.old }
{
    match play_demo(rt, alloc, seed, files, edits, workers) {
        Ok(played) => write_summary(alloc, &played, out),
        Err(_) => Status::OutOfMemory,
    }
}

/// Plays the script of a demo with so many workers. May block.
fn play_demo<R: Threads + Wait + Sync>(
    rt: &R,
    alloc: Global,
    seed: u32,
    files: u32,
    edits: u32,
    workers: u32,
) -> Result<Played, AllocError>
    requires { IsInRange (Request.Demo seed files edits workers) }
    ensures { IfOk result
        (λ played. PlaysDemo seed files edits workers played.workers.items (ended_of played)) }
{
    a_demo_is_lawful();
    demo_runs_agree();
    let script = script_of_demo(alloc, seed, files, edits)?;
    let gate = LaneGate::new(rt, &script);
    let store = Store::empty(alloc);
    playing::play(rt, alloc, &script, &[], workers, store, &gate)
}

/// The script of a demo.
fn script_of_demo(alloc: Global, seed: u32, files: u32, edits: u32) -> Result<Script, AllocError>
    requires some_file { 0 < files }
    requires few_files { files ≤ max_files }
    requires few_edits { edits ≤ max_edits }
    ensures { IfOk result (λ script. IsScript (demo_bytes seed files edits) script) }
{
    no_demo_is_refused();
    let bytes = demo_script(alloc, seed, files, edits)?;
    match parse(alloc, &bytes) {
        Ok(script) => Ok(script),
        Err(ScriptRefusal::BadLine { .. }) => unreachable!(),
        Err(ScriptRefusal::OutOfMemory) => Err(AllocError),
    }
}

/// Writes the summary of a run.
fn write_summary<K: Sink>(alloc: Global, played: &Played, out: &mut K) -> Status
    ensures ends { WriteEnds (written K.Sink out.old out.new)
        (summary_of (ended_of played.now)) result }
    ensures quiet { result ≢ Status.SinkFault → K.faults out.new ≡ K.faults out.old }
{
    match summary(alloc, played) {
        Ok(bytes) => write_bytes(&bytes, out),
        Err(_) => Status::OutOfMemory,
    }
}
