//! A script that is parsed, played and printed call by call.
use crate::program::three_files;
use crate::running::script_of;
use ide_script::{PlayRefusal, play};
use playing::LaneGate;
use script_lang::Script;
use shared_ide::{End, Store, Worked};
use std::alloc::{AllocError, Global};
use std::sync::Wait;
use std::thread::Threads;
use transcripts::{Played, summary, transcript};

const SCRIPT: &[u8] = b"create A.java \"class A {}\"\nsettle\nword A\n";

const TRANSCRIPT: &[u8] =
    b"history 2\n1 0 1 create A.java 10\n2 0 2 intake 1 1\n1 at 1 accepted\n2 at 2 smart\n3 at 2 rows 1\n  A.java code\n";

/// Whether each call gives what it should, with two workers. It may block.
pub fn is_played_in_parts<R: Threads + Wait + Sync>(
    rt: &R,
    alloc: Global,
) -> Result<bool, AllocError> {
    let script = script_of(alloc, SCRIPT)?;
    match played_by_two(rt, alloc, &script) {
        Ok(played) => Ok(script.prelude().len() == 3 && is_printed(alloc, &played)?),
        Err(_) => Err(AllocError),
    }
}

/// The run of a script with two workers.
fn played_by_two<R: Threads + Wait + Sync>(
    rt: &R,
    alloc: Global,
    script: &Script,
) -> Result<Played, PlayRefusal> {
    let mut tree = three_files(alloc)?;
    let gate = LaneGate::new(rt, script);
    let store = Store::empty(alloc);
    play(rt, alloc, script, 2, store, &mut tree, &gate)
}

/// Whether a run has these entries, records and workers, its transcript is this one, and its summary is empty.
fn is_printed(alloc: Global, played: &Played) -> Result<bool, AllocError> {
    let printed = transcript(alloc, played)?;
    Ok(
        played.history.len() == 2
            && played.records.as_slice().len() == 3
            && are_idle(played.workers.as_slice())
            && printed.as_slice() == TRANSCRIPT
            && summary(alloc, played)?.is_empty(),
    )
}

/// Whether these are two workers that took nothing in, and found nothing to do at the end.
fn are_idle(workers: &[Worked]) -> bool {
    match workers {
        [one, two] => is_idle(one) && is_idle(two),
        _ => false,
    }
}

fn is_idle(worked: &Worked) -> bool {
    worked.taken() == 0 && worked.end() == (End::Idle { at: 2 })
}
