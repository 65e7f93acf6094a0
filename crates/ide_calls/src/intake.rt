//! The second part of a step: data that were made outside the lock go in, where they still fit.
ghost use Rattle.std.specs.Prelude.{◌≡◌, Some, IfOk, OnErr};
ghost use Rattle.action_lock.specs.Advances.{Advances};
ghost use Rattle.action_lock.specs.Passes.{view_of, IsSamePass, IsPassOf, Intends};
ghost use Rattle.write_history.specs.Fold.{fold};
ghost use Rattle.ide_world.specs.Task.{task_with_id};
ghost use Rattle.ide_calls.specs.Made.{Continues};
ghost use Rattle.ide_calls.specs.Reads.{HasOnlyLearned};
ghost use Rattle.ide_calls.specs.Intake.{HasJudged, HasAnswered, IsAnsweredBy, task_of_made};

use crate::judge::{Judged, judge};
use crate::step::Stepped;
use crate::{IdeHome, write_entry};
use action_lock::{ActionLock, Pass};
use history_laws::laws::histories_go_on;
use ide_world::Made;
use ide_world::laws::a_task_stays_of_the_world;
use std::alloc::{AllocError, Global};
use std::sync::Wait;
use write_history::{Change, Changes, Entry};

/// Takes data in under an intent of its own, where the file is still at the stamp at which they were made.
pub(crate) fn take_in<R: Wait>(
    rt: &R,
    alloc: Global,
    lock: &ActionLock<IdeHome>,
    pass: &mut Pass<IdeHome>,
    made: Made,
) -> Result<Stepped, AllocError>
    requires pass { IsPassOf lock.now pass.old }
    requires work { task_with_id (fold (view_of pass.old).seen) made.file
        ≡ Some (task_of_made made) }
    ensures pass { Continues lock.now pass.old pass.new }
    ensures ok { IfOk result
        (IsAnsweredBy made.file made.stamp (view_of pass.old) (view_of pass.new)) }
    ensures err { OnErr result ((view_of pass.new).mine ≡ (view_of pass.old).mine) }
{
    let seat = pass.number();
    pass.intent(rt, lock);
    let answer = take_in_with_intent(rt, alloc, lock, pass, seat, made);
    pass.release(lock);
    answer
}

/// The same under an intent that the pass, whose number is `seat`, has.
fn take_in_with_intent<R: Wait>(
    rt: &R,
    alloc: Global,
    lock: &ActionLock<IdeHome>,
    pass: &mut Pass<IdeHome>,
    seat: u32,
    made: Made,
) -> Result<Stepped, AllocError>
    requires intends { Intends lock.now pass.old }
    requires own { (view_of pass.old).number ≡ Some seat }
    requires work { task_with_id (fold (view_of pass.old).seen) made.file
        ≡ Some (task_of_made made) }
    ensures pass { Intends lock.now pass.new × IsSamePass pass.old pass.new }
    ensures advances { Advances (view_of pass.old) (view_of pass.new) }
    ensures ok { IfOk result
        (HasAnswered seat made.file made.stamp (view_of pass.old) (view_of pass.new)) }
    ensures err { OnErr result ((view_of pass.new).mine ≡ (view_of pass.old).mine) }
{
    let file = made.file;
    let stamp = made.stamp;
    match judge_with_intent(rt, alloc, lock, pass, made)? {
        Judged::Gone => Ok(Stepped::Gone { file }),
        Judged::Stale { present } => Ok(Stepped::Stale {
            file,
            made: stamp,
            present,
        }),
        Judged::Full { at } => Ok(Stepped::Refused { at }),
        Judged::Prepared { at, ready } => {
            let changes = Changes::one(Change::Intake { file, stamp });
            let entry = Entry {
                seat,
                line: 0,
                changes,
            };
            write_entry(rt, lock, pass, ready, entry)?;
            Ok(Stepped::Taken { position: at + 1 })
        }
    }
}

/// Reads under the intent, and judges data by what is there.
fn judge_with_intent<R: Wait>(
    rt: &R,
    alloc: Global,
    lock: &ActionLock<IdeHome>,
    pass: &mut Pass<IdeHome>,
    made: Made,
) -> Result<Judged, AllocError>
    requires intends { Intends lock.now pass.old }
    requires work { task_with_id (fold (view_of pass.old).seen) made.file
        ≡ Some (task_of_made made) }
    ensures pass { Intends lock.now pass.new × IsSamePass pass.old pass.new }
    ensures learned { HasOnlyLearned (view_of pass.old) (view_of pass.new) }
    ensures ok { IfOk result
        (HasJudged made.file made.stamp (view_of pass.old) (view_of pass.new)) }
{
    a_task_stays_of_the_world();
    histories_go_on();
    match pass.read(rt, alloc, lock) {
        Ok(reading) => {
            let judged = judge(alloc, reading.share().state(), made);
            reading.leave();
            judged
        }
        Err(refused) => {
            drop(made);
            Err(refused)
        }
    }
}
