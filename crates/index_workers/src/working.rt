//! A worker's run.
ghost use Rattle.std.specs.Prelude.{◌≡◌, IfOk, OnErr};
ghost use Rattle.job_queue.specs.Passes.{queue_view};
ghost use Rattle.index_workers.specs.Hints.{HasOnlyPopped};
ghost use Rattle.index_workers.specs.Passes.{ide_view, IsIdePassOf, Continues};
ghost use Rattle.index_workers.specs.Work.{HasWorked, HasWorkedInPart};

use crate::cursor::SharedCursor;
use crate::ending::{end_of, taken};
use crate::pass::IdePass;
use crate::stepping::index_step;
use crate::worked::{End, Worked};
use action_lock::{ActionLock, Gate};
use ide_calls::{IdeHome, Store};
use job_queue::JobQueue;
use std::alloc::{AllocError, Global};
use std::sync::Wait;

/// How many steps a worker makes at most.
const TURNS: u32 = 131_072;

/// Makes steps until nothing is to be done and the gate tells it to end, or the history is full, or it has made 131,072. When memory
/// runs out, what it made so far stays.
pub fn worker<R: Wait, G: Gate>(
    rt: &R,
    alloc: Global,
    lock: &ActionLock<IdeHome>,
    queue: &JobQueue,
    cursor: &SharedCursor,
    store: &Store,
    pass: &mut IdePass,
    gate: &G,
) -> Result<Worked, AllocError>
    requires { IsIdePassOf lock.now queue.now pass.old }
    ensures pass { Continues lock.now queue.now pass.old pass.new }
    ensures hints { HasOnlyPopped (queue_view pass.old.queue) (queue_view pass.new.queue) }
    ensures ok { IfOk result
        (HasWorked (G.may_say gate.now) (ide_view pass.old) (ide_view pass.new)
        (queue_view pass.old.queue) (queue_view pass.new.queue)) }
    ensures err { OnErr result
        (HasWorkedInPart (G.may_say gate.now) (ide_view pass.old) (ide_view pass.new)
        (queue_view pass.old.queue) (queue_view pass.new.queue)) }
{
    let seat = pass.number();
    let mut entries = 0;
    for turn in 0..TURNS {
        let step = index_step(rt, alloc, lock, queue, cursor, store, pass, gate)?;
        entries += taken(&step);
        if let Some(end) = end_of(gate, seat, &step) {
            return Ok(Worked {
                seat,
                turns: turn + 1,
                taken: entries,
                end,
            });
        }
    }
    Ok(Worked {
        seat,
        turns: TURNS,
        taken: entries,
        end: End::Turns,
    })
}
