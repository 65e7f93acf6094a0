//! One pass that fills the queue and empties it.
ghost use Rattle.job_queue.specs.Passes.{IsQueuePassOf};

use job_queue::{Full, JobQueue, QueuePass};
use std::sync::Wait;

/// Offers this many hints. The first that finds no room.
pub fn fill<R: Wait>(rt: &R, queue: &JobQueue, pass: &mut QueuePass, hints: u32) -> Option<Full>
    requires { IsQueuePassOf queue.now pass.old }
    ensures { IsQueuePassOf queue.now pass.new }
{
    for file in 0..hints {
        if pass.offered() >= 1_048_576 {
            return None;
        }
        if let Err(full) = queue.offer(rt, pass, file) {
            return Some(full);
        }
    }
    None
}

/// Takes until there is none, this many at most. How many there were, if their turns are 1, 2, .. in order.
pub fn empty<R: Wait>(rt: &R, queue: &JobQueue, pass: &mut QueuePass, hints: u32) -> Option<u32>
    requires { IsQueuePassOf queue.now pass.old }
    ensures { IsQueuePassOf queue.now pass.new }
{
    for taken in 0..hints {
        let Some(hint) = queue.take(rt, pass) else {
            return Some(taken);
        };
        if hint.turn != taken + 1 {
            return None;
        }
    }
    Some(hints)
}
