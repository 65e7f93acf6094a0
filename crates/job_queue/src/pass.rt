//! The token by which one thread uses a queue.
ghost use Rattle.std.specs.Prelude.{◌≡◌, ◌<◌, Some, length};
ghost use Rattle.std.proofs.Props.{props};
ghost use Rattle.crossbeam_queue.specs.Passes.{view};

use crate::hint::Hint;
use crate::view::QueueView;
use crossbeam_queue::Pass;

/// What one thread knows of a queue, and its right to put and to take.
pub struct QueuePass {
    pub(crate) seat: Pass<Hint, QueueView>,
    pub(crate) number: u32,
    // How many hints it has put.
    pub(crate) offered: u32,
    // How many numbers it has given, if it is number 0.
    pub(crate) drawn: u32,
    // How many passes were met into it.
    pub(crate) met: u32,
    ghost numbered: { (view seat).number ≡ Some number } by { Prim.hlevel props },
    ghost counts: { length (view seat).put ≡ offered },
    ghost draws: { (view seat).drawn ≡ drawn },
    ghost meets: { length (view seat).ended ≡ met },
    ghost few: { met < 65536 },
}

impl QueuePass {
    ghost use Rattle.job_queue.specs.Passes.{queue_view};

    /// Its number: 0 for the first pass of a queue, then in the order in which passes were split off.
    pub fn number(&self) -> u32
        ensures { (queue_view self.now).number ≡ Some result }
    {
        self.number
    }

    /// How many hints it has put.
    pub fn offered(&self) -> u32
        ensures { result ≡ length (queue_view self.now).put }
    {
        self.offered
    }

    /// How many numbers it has given, its own included, if it is number 0.
    pub fn drawn(&self) -> u32
        ensures { result ≡ (queue_view self.now).drawn }
    {
        self.drawn
    }
}
