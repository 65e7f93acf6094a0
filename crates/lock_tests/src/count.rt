//! A piece of work: it looks once and so many times more, and then counts the notes.
ghost use Rattle.std.specs.Prelude.{◌≡◌, ◌+◌, length, IsTrue, IsFalse};
ghost use Rattle.action_lock.specs.Polls.{LooksThrough, StopsAtSight};

use crate::board::{Board, Note};
use action_lock::{Gate, Point, Watch};
use nonblocking_read::{Stopped, Work};
use std::alloc::Global;
use std::sync::Arc;
use std::sync::atomic::{AtomicU64, Ordering};
use std::thread;

/// Counts the notes of a board, and looks so many times more for a pending write.
#[derive(Drop)]
pub struct Count<'a> {
    /// Beats behind the first look.
    pub clock: &'a AtomicU64,
    pub more_looks: u64,
}

impl<'a> Work<Board> for Count<'a> {
    type Out = usize;

    ghost fits = { λ work out notes. out ≡ length notes };

    ghost owes = { λ work notes n. n ≡ work.more_looks + 1 };

    fn run<W: Watch>(
        &mut self,
        _alloc: Global,
        share: &Arc<Vec<Note>>,
        watch: &mut W,
    ) -> Result<usize, Stopped> {
        if sees_within(watch, self.clock, self.more_looks) {
            return Err(Stopped::Seen);
        }
        Ok(share.len())
    }
}

/// Looks once, and then until the watch sees that the work is to end, so many times more at most. Whether it saw it.
fn sees_within<W: Watch>(watch: &mut W, clock: &AtomicU64, more: u64) -> bool
    requires { W.can_look watch.old }
    ensures again { W.can_look watch.new }
    ensures stays { W.stays watch.old watch.new }
    ensures seen { IsTrue result
        → StopsAtSight W.looks W.sightings W.stays (more + 1) watch.old watch.new }
    ensures unseen { IsFalse result
        → LooksThrough W.looks W.sightings (more + 1) watch.old watch.new }
{
    if watch.look() {
        return true;
    }
    clock.fetch_add(1, Ordering::SeqCst);
    for looks in 0..more {
        thread::yield_now();
        if watch.look() {
            return true;
        }
    }
    false
}

/// A gate that lets each thread go on wherever it is.
pub struct NoGate {}

impl Gate for NoGate {
    fn at(&self, _point: Point) -> bool {
        false
    }
}
