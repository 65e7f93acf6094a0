//! Hints for workers.
ghost use Rattle.std.specs.Prelude.{◌≡◌, ◌<◌, length};
ghost use Rattle.job_queue.specs.Passes.{queue_view, IsQueuePassOf, IsSameQueuePass};
ghost use Rattle.index_workers.specs.Hints.{HasHinted};

use crate::pass::IdePass;
use job_queue::JobQueue;
use std::sync::Wait;

/// Puts a hint that a file is to be indexed. Where the queue is full it is dropped, since a worker looks at the workspace itself. A pass
/// may put fewer than 1,048,576: one for each of its entries.
pub fn hint<R: Wait>(rt: &R, queue: &JobQueue, pass: &mut IdePass, file: u32)
    requires pass { IsQueuePassOf queue.now pass.old.queue }
    requires room { length (queue_view pass.old.queue).put < 1048576 }
    ensures pass { IsQueuePassOf queue.now pass.new.queue
        × IsSameQueuePass pass.old.queue pass.new.queue }
    ensures lock { pass.new.lock ≡ pass.old.lock }
    ensures hints { HasHinted file (queue_view pass.old.queue) (queue_view pass.new.queue) }
{
    let _dropped = queue.offer(rt, &mut pass.queue, file);
}
