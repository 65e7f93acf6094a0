//! New shares for readers.
ghost use Rattle.std.specs.Prelude.{◌≡◌, ◌+◌};
ghost use Rattle.action_lock.specs.Passes.{view_of, IsPassOf};
ghost use Rattle.ide_calls.specs.Made.{Continues};

use crate::IdeHome;
use action_lock::{ActionLock, Pass};
use std::sync::Wait;

/// Has the lock make the share of each place of readers anew, by a write that changes nothing. Where an earlier write found no
/// memory for the share of a place, every read there runs out of memory until another write finds it. May block.
pub fn renew<R: Wait>(rt: &R, lock: &ActionLock<IdeHome>, pass: &mut Pass<IdeHome>)
    requires { IsPassOf lock.now pass.old }
    ensures pass { Continues lock.now pass.old pass.new }
    ensures mine { (view_of pass.new).mine ≡ (view_of pass.old).mine }
    ensures wrote { (view_of pass.new).writes ≡ (view_of pass.old).writes + 1 }
{
    pass.intent(rt, lock);
    pass.announce(lock);
    pass.write(rt, lock);
    pass.abandon(lock);
    pass.release(lock);
}
