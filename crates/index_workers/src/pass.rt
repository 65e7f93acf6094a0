//! The token by which one thread uses a shared workspace.
ghost use Rattle.std.specs.Prelude.{◌≡◌, Some};
ghost use Rattle.action_lock.specs.Passes.{view_of};

use action_lock::Pass;
use ide_calls::IdeHome;
use job_queue::QueuePass;

/// A pass of the lock, and one of the queue of hints with the same number. It has to be spent, by `meet` or `close`.
pub struct IdePass {
    /// Its pass of the lock.
    pub lock: Pass<IdeHome>,
    /// Its pass of the queue of hints.
    pub queue: QueuePass,
}

impl IdePass {
    /// The number that it has for lock and queue: 0 for the first pass.
    pub fn number(&self) -> u32
        ensures { (view_of self.now.lock).number ≡ Some result }
    {
        self.lock.number()
    }

    /// How often it has found that a write waits, up to 2^64 - 1.
    pub fn sights(&self) -> u64
        ensures { result ≡ (view_of self.now.lock).sights }
    {
        self.lock.sights()
    }
}
