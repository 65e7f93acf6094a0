//! One step of a worker.
ghost use Rattle.std.specs.Prelude.{◌≡◌, ℕ, IfOk, OnErr, Option, Some};
ghost use Rattle.job_queue.specs.declared.hint.Hint.{Hint};
ghost use Rattle.job_queue.specs.Passes.{queue_view};
ghost use Rattle.ide_calls.specs.Step.{HasStepped};
ghost use Rattle.index_workers.specs.Hints.{HasPopped, IsFirstTried};
ghost use Rattle.index_workers.specs.Passes.{ide_view, IsIdePassOf, Continues};

use crate::cursor::SharedCursor;
use crate::pass::IdePass;
use action_lock::{ActionLock, Gate};
use ide_calls::{IdeHome, Stepped, Store};
use job_queue::{Hint, JobQueue};
use std::alloc::{AllocError, Global};
use std::sync::Wait;

/// Takes a hint, if there is one, and does a step of indexing: of the hinted file, or without a hint of the next of the walk, if that is
/// unready, else of the first unready one from an id of its own on. Its index data are the store's, where it has them.
pub fn index_step<R: Wait, G: Gate>(
    rt: &R,
    alloc: Global,
    lock: &ActionLock<IdeHome>,
    queue: &JobQueue,
    cursor: &SharedCursor,
    store: &Store,
    pass: &mut IdePass,
    gate: &G,
) -> Result<Stepped, AllocError>
    requires { IsIdePassOf lock.now queue.now pass.old }
    ensures pass { Continues lock.now queue.now pass.old pass.new }
    ensures step { (hint : Option Hint) × (file : ℕ)
        × HasPopped hint (queue_view pass.old.queue) (queue_view pass.new.queue)
        × IsFirstTried hint file
        × IfOk result (HasStepped (Some file) (ide_view pass.old) (ide_view pass.new)) }
    ensures err { OnErr result ((ide_view pass.new).mine ≡ (ide_view pass.old).mine) }
{
    let hint = queue.take(rt, &mut pass.queue);
    let file = first_tried(cursor, hint);
    let step = ide_calls::index_step(rt, alloc, lock, store, &mut pass.lock, Some(file), gate);
    cursor.end_with(&step);
    step
}

/// The file of a hint, behind which the walk goes on, or the next of the walk.
fn first_tried(cursor: &SharedCursor, hint: Option<Hint>) -> u32
    ensures { IsFirstTried hint result }
{
    match hint {
        Some(hint) => {
            cursor.pass(hint.file);
            hint.file
        }
        None => cursor.step(),
    }
}
