//! What `main` does once it has the real objects.
ghost use Rattle.std.specs.Prelude.{◌≡◌, ◌≢◌, ◌<◌, [], map, string_bytes, vec_len, IfErr, IfOk, OnOk, OnErr};
ghost use Rattle.std.specs.Process.{exit_status};
ghost use Rattle.std.specs.Io.KnownBytes.{append_known};
ghost use Rattle.command_line.specs.Request.{request_of};
ghost use Rattle.ide_io.specs.Fault.{HasFault};
ghost use Rattle.ide_io.specs.Known.{TakesAtMost};
ghost use Rattle.script_lang.specs.Lines.{max_bytes};
ghost use Rattle.ide_script.specs.Status.{exit_code, fault_line};
ghost use Rattle.ide_script.specs.Outside.{read, asked, written};
ghost use Rattle.ide_script.specs.Run.{AsksNothing, EndsUnread, EndsWith, RunEnds, TellsEndOnce, TellsStatus, given_words};

use crate::{Status, run_ide};
use ide_io::{Failed, Sink, Source, Tree, write_all};
use itoa::Buffer;
use std::alloc::{AllocError, Global};
use std::process::ExitCode;
use std::sync::Wait;
use std::thread::Threads;

/// Runs the program on the words that the system gave, writes the line of the status to `error`, and gives the number with
/// which the process ends. May block.
pub fn run_main<R: Threads + Wait + Sync, S: Source, T: Tree, K: Sink, E: Sink>(
    rt: &R,
    alloc: Global,
    words: Vec<String>,
    script: &mut S,
    tree: &mut T,
    out: &mut K,
    error: &mut E,
) -> u8
    ensures ends { EndsWith (read S.Source script.old script.new) (asked T.Tree tree.old tree.new)
        (written K.Sink out.old out.new) (written E.Sink error.old error.new)
        (given_words (map string_bytes words.items)) result }
    ensures within { result ≢ exit_code Status.ScriptTooLong
        → TakesAtMost max_bytes (S.left script.old) (S.left script.new) }
    ensures end_once { TellsEndOnce (S.ends script.old) (S.ends script.new) }
    ensures files { T.files tree.new ≡ T.files tree.old }
{
    let status = run_given(rt, alloc, words, script, tree, out);
    finish(status, error)
}

/// Runs the program on the words that the system gave. May block.
fn run_given<R: Threads + Wait + Sync, S: Source, T: Tree, K: Sink>(
    rt: &R,
    alloc: Global,
    words: Vec<String>,
    script: &mut S,
    tree: &mut T,
    out: &mut K,
) -> Status
    ensures ends { RunEnds (read S.Source script.old script.new) (asked T.Tree tree.old tree.new)
        (written K.Sink out.old out.new)
        (request_of (given_words (map string_bytes words.items))) result }
    ensures within { result ≢ Status.ScriptTooLong
        → TakesAtMost max_bytes (S.left script.old) (S.left script.new) }
    ensures end_once { TellsEndOnce (S.ends script.old) (S.ends script.new) }
    ensures unread { AsksNothing (request_of (given_words (map string_bytes words.items)))
        → (script.new ≡ script.old) × (tree.new ≡ tree.old) }
    ensures silent { result ≢ Status.Done → result ≢ Status.Rejected → result ≢ Status.SinkFault
        → out.new ≡ out.old }
    ensures files { T.files tree.new ≡ T.files tree.old }
    ensures source_quiet { result ≢ Status.SourceFault → S.faults script.new ≡ S.faults script.old }
    ensures tree_quiet { result ≢ Status.TreeFault → T.faults tree.new ≡ T.faults tree.old }
    ensures sink_quiet { result ≢ Status.SinkFault → K.faults out.new ≡ K.faults out.old }
{
    match with_name(alloc, words) {
        Ok(words) => run_ide(rt, alloc, &words, script, tree, out),
        Err(_) => Status::OutOfMemory,
    }
}

/// Runs the program on the words that the system gave, or says why it gave none, and gives the code with which the process
/// ends. May block.
pub fn run_process<R: Threads + Wait + Sync, S: Source, T: Tree, K: Sink, E: Sink>(
    rt: &R,
    alloc: Global,
    words: Result<Vec<String>, Status>,
    script: &mut S,
    tree: &mut T,
    out: &mut K,
    error: &mut E,
) -> ExitCode
    ensures given { IfOk words
        (λ words. EndsWith (read S.Source script.old script.new) (asked T.Tree tree.old tree.new)
        (written K.Sink out.old out.new) (written E.Sink error.old error.new)
        (given_words (map string_bytes words.items)) (exit_status result)) }
    ensures refused { IfErr words
        (λ status. EndsUnread (read S.Source script.old script.new) (asked T.Tree tree.old tree.new)
        (written K.Sink out.old out.new) (written E.Sink error.old error.new) status
        (exit_status result)) }
    ensures within { exit_status result ≢ exit_code Status.ScriptTooLong
        → TakesAtMost max_bytes (S.left script.old) (S.left script.new) }
    ensures end_once { TellsEndOnce (S.ends script.old) (S.ends script.new) }
    ensures files { T.files tree.new ≡ T.files tree.old }
{
    ExitCode::from(match words {
        Ok(words) => run_main(rt, alloc, words, script, tree, out, error),
        Err(status) => finish(status, error),
    })
}

/// The words that the system gave, or the program's name where it gave none.
fn with_name(alloc: Global, given: Vec<String>) -> Result<Vec<String>, AllocError>
    ensures words { IfOk result
        (λ words. map string_bytes words.items ≡ given_words (map string_bytes given.items)) }
    ensures some { IfOk result (λ words. 0 < vec_len words) }
    ensures err { OnErr result (given.items ≡ []) }
{
    let mut words = given;
    if words.is_empty() {
        words.push(String::from_str(alloc, "ide")?)?;
    }
    Ok(words)
}

/// Writes the line of a status to `error`, and gives the number of the status.
pub fn finish<E: Sink>(status: Status, error: &mut E) -> u8
    ensures number { result ≡ exit_code status }
    ensures line { TellsStatus (written E.Sink error.old error.new) status }
{
    let _ = write_line(status, error);
    status.number()
}

/// Writes the line of a status. It takes no memory.
fn write_line<E: Sink>(status: Status, error: &mut E) -> Result<(), Failed>
    ensures ok { OnOk result
        (E.taken error.new ≡ append_known (E.taken error.old) (fault_line status)) }
    ensures fault { OnErr result (HasFault (E.faults error.old) (E.faults error.new)) }
{
    match status {
        Status::Done => Ok(()),
        Status::BadScript { line } => write_bad_line(line, error),
        Status::Usage => write_all(error, b"ide: usage\n"),
        Status::SourceFault => write_all(error, b"ide: source fault\n"),
        Status::TreeFault => write_all(error, b"ide: tree fault\n"),
        Status::SinkFault => write_all(error, b"ide: sink fault\n"),
        Status::OutOfMemory => write_all(error, b"ide: out of memory\n"),
        Status::ScriptTooLong => write_all(error, b"ide: script too long\n"),
        Status::Rejected => write_all(error, b"ide: bad transcript\n"),
    }
}

/// Writes the line of a script's bad line.
fn write_bad_line<E: Sink>(line: u32, error: &mut E) -> Result<(), Failed>
    ensures ok { OnOk result
        (E.taken error.new
        ≡ append_known (E.taken error.old) (fault_line (Status.BadScript line))) }
    ensures fault { OnErr result (HasFault (E.faults error.old) (E.faults error.new)) }
{
    let mut digits = Buffer::new();
    write_all(error, b"ide: bad script line ")?;
    write_all(error, digits.format(line).as_bytes())?;
    write_all(error, b"\n")
}
