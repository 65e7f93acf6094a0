//! The queue of hints.
ghost use Rattle.std.specs.Prelude.{◌≡◌, ◌≢◌, ◌<◌, ◌↔◌, IsTrue, List, ◌∷◌, length, Some, IfOk, IfErr, IfSome, IfNone, OnOk};
ghost use Rattle.crossbeam_queue.specs.Fifo.{Held};
ghost use Rattle.crossbeam_queue.specs.Passes.{ruled_capacity};
ghost use Rattle.job_queue.specs.Accounts.{IsAccounted};
ghost use Rattle.job_queue.specs.Rule.{HadRoom, Stood};
ghost use Rattle.job_queue.specs.Views.{first_view, IsLast, joined, next_hint, putting, split_off, splitting, taking};

use crate::hint::{Full, Hint};
use crate::pass::QueuePass;
use crate::rule::{Cut, Glue, JobRule, Put, Take};
use crate::view::QueueView;
use crossbeam_queue::RuledArrayQueue;
use std::alloc::{AllocError, Global};
use std::sync::Wait;

/// How many hints have room.
const HINTS: usize = 1024;

/// A queue of at most 1,024 hints that threads share.
#[derive(Drop)]
pub struct JobQueue {
    pub(crate) ring: RuledArrayQueue<Hint, QueueView, JobRule>,
    ghost sized: { ruled_capacity ring ≡ 1024 },
}

impl JobQueue {
    ghost use Rattle.job_queue.specs.Passes.{queue_view, IsQueuePassOf, IsSameQueuePass};

    /// An empty queue, and its first pass, number 0.
    pub fn new(alloc: Global) -> Result<(JobQueue, QueuePass), AllocError>
        ensures { IfOk result
            (λ made. IsQueuePassOf made.0 made.1 × (queue_view made.1 ≡ first_view)) }
    {
        let (ring, seat) = RuledArrayQueue::ruled(alloc, HINTS)?;
        let pass = QueuePass {
            seat,
            number: 0,
            offered: 0,
            drawn: 1,
            met: 0,
        };
        Ok((JobQueue { ring }, pass))
    }

    /// A pass with the next number. Number 0 alone gives numbers, 65,536 with its own.
    pub fn split(&self, pass: &mut QueuePass) -> QueuePass
        requires pass { IsQueuePassOf self.now pass.old }
        requires leads { (queue_view pass.old).number ≡ Some 0 }
        requires room { (queue_view pass.old).drawn < 65536 }
        ensures pass { IsQueuePassOf self.now pass.new × IsSameQueuePass pass.old pass.new }
        ensures view { queue_view pass.new ≡ splitting (queue_view pass.old) }
        ensures new { IsQueuePassOf self.now result
            × (queue_view result ≡ split_off (queue_view pass.old)) }
    {
        let seat = self.ring.another::<Cut>(&mut pass.seat);
        let number = pass.drawn;
        pass.drawn += 1;
        QueuePass {
            seat,
            number,
            offered: 0,
            drawn: 0,
            met: 0,
        }
    }

    /// The second pass keeps what the first put and took, apart by its number.
    pub fn meet(&self, other: QueuePass, pass: &mut QueuePass)
        requires pass { IsQueuePassOf self.now pass.old }
        requires other { IsQueuePassOf self.now other }
        requires follows { (queue_view other).number ≢ Some 0 }
        ensures pass { IsQueuePassOf self.now pass.new × IsSameQueuePass pass.old pass.new }
        ensures view { queue_view pass.new ≡ joined (queue_view pass.old) (queue_view other) }
    {
        let QueuePass {
            seat,
            number: _,
            offered: _,
            drawn: _,
            met,
        } = other;
        self.ring.absorb::<Glue>(&mut pass.seat, seat);
        self.ring.learn_as::<Put>(&mut pass.seat);
        pass.met += met + 1;
    }

    /// Puts a hint of this file at the end of the queue. It comes back only where 1,024 hints were in the queue at a moment of the call.
    pub fn offer<R: Wait>(&self, rt: &R, pass: &mut QueuePass, file: u32) -> Result<(), Full>
        requires pass { IsQueuePassOf self.now pass.old }
        requires room { length (queue_view pass.old).put < 1048576 }
        ensures pass { IsQueuePassOf self.now pass.new × IsSameQueuePass pass.old pass.new }
        ensures ok { OnOk result
            ((queue_view pass.new
            ≡ putting (next_hint pass.old.number file (queue_view pass.old))
            (queue_view pass.old))
            × HadRoom (queue_view pass.old)) }
        ensures full { IfErr result
            (λ refusal. (refusal.hint ≡ next_hint pass.old.number file (queue_view pass.old))
            × (queue_view pass.new ≡ queue_view pass.old)
            × Held 1024 (Stood (queue_view pass.old))) }
    {
        let hint = Hint {
            file,
            pusher: pass.number,
            turn: pass.offered + 1,
        };
        match self.ring.push_as::<Put, R>(rt, &mut pass.seat, hint) {
            Ok(()) => {
                pass.offered += 1;
                Ok(())
            }
            Err(hint) => Err(Full { hint }),
        }
    }

    /// Takes the oldest hint. There is none only where the queue was empty at a moment of the call.
    pub fn take<R: Wait>(&self, rt: &R, pass: &mut QueuePass) -> Option<Hint>
        requires pass { IsQueuePassOf self.now pass.old }
        ensures pass { IsQueuePassOf self.now pass.new × IsSameQueuePass pass.old pass.new }
        ensures some { IfSome result
            (λ hint. (queue_view pass.new ≡ taking hint (queue_view pass.old))
            × ((rest : List Hint) × Stood (queue_view pass.old) (hint ∷ rest))) }
        ensures none { IfNone result
            ((queue_view pass.new ≡ queue_view pass.old) × Held 0 (Stood (queue_view pass.old))) }
    {
        self.ring.pop_as::<Take, R>(rt, &mut pass.seat)
    }

    /// Whether the pass is number 0, and every other number that was given was met into it.
    pub fn is_last(&self, pass: &QueuePass) -> bool
        ensures { IsTrue result ↔ IsLast (queue_view pass.now) }
    {
        pass.number == 0 && pass.drawn == pass.met + 1
    }

    /// Ends the queue. Each hint that was put was taken once, or is left.
    pub fn close(self, pass: QueuePass)
        requires pass { IsQueuePassOf self pass }
        requires last { IsLast (queue_view pass) }
        ensures { (left : List Hint) × IsAccounted (queue_view pass) left }
    {
        let QueuePass {
            mut seat,
            number: _,
            offered: _,
            drawn: _,
            met: _,
        } = pass;
        self.ring.learn_as::<Put>(&mut seat);
    }
}
