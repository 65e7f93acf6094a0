//! An entry goes in under an intent.
ghost use Rattle.std.specs.Prelude.{◌≡◌, ◌≤◌, true, Some, length, IfOk, OnOk, OnErr};
ghost use Rattle.write_history.specs.Effect.{max_entries};
ghost use Rattle.write_history.specs.Fold.{fold, IsLegal};
ghost use Rattle.ide_world.specs.Ready.{IsReadyFor, Makes, hinted};
ghost use Rattle.action_lock.specs.Advances.{Advances};
ghost use Rattle.action_lock.specs.Passes.{view_of, IsSamePass, Intends};
ghost use Rattle.ide_calls.specs.Made.{unwritten, written};

use crate::home::IdeHome;
use action_lock::{ActionLock, Pass};
use history_laws::laws::histories_go_on;
use ide_world::Ready;
use std::alloc::AllocError;
use std::sync::Wait;
use write_history::Entry;

/// Puts a prepared entry in, under an intent that has read what it was prepared on. The intent stays. Where there is no
/// memory nothing is written. The answer is the first of the changed files that is unready now. May block.
pub fn write_entry<R: Wait>(
    rt: &R,
    lock: &ActionLock<IdeHome>,
    pass: &mut Pass<IdeHome>,
    ready: Ready,
    entry: Entry,
) -> Result<Option<u32>, AllocError>
    requires intends { Intends lock.now pass.old }
    requires current { (view_of pass.old).current ≡ true }
    requires own { (view_of pass.old).number ≡ Some entry.seat }
    requires ready { IsReadyFor (fold (view_of pass.old).seen) ready }
    requires makes { Makes (fold (view_of pass.old).seen) ready entry.changes }
    ensures same { IsSamePass pass.old pass.new }
    ensures intends { Intends lock.now pass.new }
    ensures current { (view_of pass.new).current ≡ true }
    ensures legal { IsLegal (view_of pass.new).seen }
    ensures advances { Advances (view_of pass.old) (view_of pass.new) }
    ensures ok { OnOk result (view_of pass.new ≡ written entry (view_of pass.old)) }
    ensures few { OnOk result (length (view_of pass.new).mine ≤ max_entries) }
    ensures unready { IfOk result
        (λ file. file ≡ hinted (fold (view_of pass.old).seen) entry.changes) }
    ensures err { OnErr result (view_of pass.new ≡ unwritten (view_of pass.old)) }
{
    histories_go_on();
    pass.announce(lock);
    pass.write(rt, lock);
    match pass.home_mut(lock).accept(ready, entry) {
        Ok(unready) => {
            pass.finish(lock);
            Ok(unready)
        }
        Err(refused) => {
            pass.abandon(lock);
            Err(refused)
        }
    }
}
