//! New shares for the readers of the shared workspace.
ghost use Rattle.std.specs.Prelude.{◌≡◌, ◌+◌};
ghost use Rattle.index_workers.specs.Passes.{ide_view};
ghost use Rattle.shared_ide.specs.Passes.{IsIdePassOf, Continues};

use crate::shared::SharedIde;
use index_workers::IdePass;
use std::sync::Wait;

impl SharedIde {
    /// Makes anew what readers share, and changes nothing else. A write that finds no memory for a share leaves those passes
    /// without one whose numbers are the same modulo the lock's places: each call of theirs that reads runs out of memory,
    /// until a write finds it. So where calls run out of memory again and again, call this once there is memory. May block.
    pub fn renew<R: Wait>(&self, rt: &R, pass: &mut IdePass)
        requires { IsIdePassOf self.now pass.old }
        ensures pass { Continues self.now pass.old pass.new }
        ensures mine { (ide_view pass.new).mine ≡ (ide_view pass.old).mine }
        ensures wrote { (ide_view pass.new).writes ≡ (ide_view pass.old).writes + 1 }
        ensures hints { pass.new.queue ≡ pass.old.queue }
    {
        ide_calls::renew(rt, &self.lock, &mut pass.lock);
    }
}
