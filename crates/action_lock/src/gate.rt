//! Points of a run at which a gate is told where a thread is, so that a test can hold it there.

/// A place in a run at which a gate is told where a thread is.
#[derive(Clone, Copy, Debug, PartialEq, Eq)]
pub enum Point {
    /// A lane is about to begin a command.
    Start { seat: u32, line: u32 },
    /// A read is open, and its answer is made.
    Reading { seat: u32 },
    /// Index data are made, and nothing is taken in yet.
    Made { seat: u32, file: u32, stamp: u64 },
    /// A worker found nothing to do.
    Idle { seat: u32 },
    /// A lane has ended.
    Ended { seat: u32 },
}

/// Is told each point, and may hold the thread there for a while.
pub trait Gate {
    ghost use Rattle.std.specs.Prelude.{Bool};
    ghost use Rattle.action_lock.specs.declared.gate.Point.{Point};

    // What it may answer at a point. A gate that says nothing of this may answer anything.
    ghost may_say: { Self → Point → Bool → Type 0 } = { λ gate point answer. Unit {0} };

    /// Its answer counts at `Idle` alone: whether the worker is to go on.
    fn at(&self, point: Point) -> bool
        ensures { may_say self.now point result };
}
