//! Changes go in: under an intent of their own they are made ready on what a read finds, and written behind it.
ghost use Rattle.std.specs.Prelude.{◌≡◌, ◌+◌, ◌≤◌, ◌∷◌, [], true, length, Some, IfOk, IfErr, OnOk, OnErr};
ghost use Rattle.std.specs.List.{list_all};
ghost use Rattle.action_lock.specs.Advances.{Advances};
ghost use Rattle.action_lock.specs.Passes.{view_of, IsSamePass, IsPassOf, Intends};
ghost use Rattle.write_history.specs.Effect.{max_entries};
ghost use Rattle.write_history.specs.Changes.{is_edit};
ghost use Rattle.ide_calls.specs.Made.{Continues};
ghost use Rattle.ide_calls.specs.Change.{HasAccepted, HasLeft, IsChangeRefused, IsGroupRefused};

use crate::accepted::Accepted;
use crate::change_refusal::ChangeRefusal;
use crate::group_refusal::GroupChangeRefusal;
use crate::planning::plan;
use crate::{IdeHome, write_entry};
use action_lock::{ActionLock, Pass};
use std::alloc::Global;
use std::sync::Wait;
use write_history::{Change, Changes, Entry};

/// Makes a change other than an intake, as an entry of its own. May block.
pub fn change<R: Wait>(
    rt: &R,
    alloc: Global,
    lock: &ActionLock<IdeHome>,
    pass: &mut Pass<IdeHome>,
    line: u32,
    change: Change,
) -> Result<Accepted, ChangeRefusal>
    requires pass { IsPassOf lock.now pass.old }
    requires edit { is_edit change ≡ true }
    ensures pass { Continues lock.now pass.old pass.new }
    ensures mine { OnErr result ((view_of pass.new).mine ≡ (view_of pass.old).mine) }
    ensures accepted { IfOk result
        (λ done. HasAccepted (view_of pass.old) (view_of pass.new) line (change ∷ []) done.at) }
    ensures one { OnOk result
        (length (view_of pass.new).mine ≡ length (view_of pass.old).mine + 1) }
    ensures few { OnOk result (length (view_of pass.new).mine ≤ max_entries) }
    ensures unready { IfOk result (λ done. HasLeft (view_of pass.new) (change ∷ []) done.unready) }
    ensures refused { IfErr result
        (IsChangeRefused (view_of pass.old) (view_of pass.new) line change) }
{
    match change_group(rt, alloc, lock, pass, line, Changes::one(change)) {
        Ok(accepted) => Ok(accepted),
        Err(GroupChangeRefusal::Refused { at, place: _, why }) => {
            Err(ChangeRefusal::Refused { at, why })
        }
        Err(GroupChangeRefusal::OutOfMemory) => Err(ChangeRefusal::OutOfMemory),
    }
}

/// Makes the changes of a group together, as one entry, or none of them. No change of them is an intake. May block.
pub fn change_group<R: Wait>(
    rt: &R,
    alloc: Global,
    lock: &ActionLock<IdeHome>,
    pass: &mut Pass<IdeHome>,
    line: u32,
    changes: Changes,
) -> Result<Accepted, GroupChangeRefusal>
    requires pass { IsPassOf lock.now pass.old }
    requires edits { list_all is_edit changes ≡ true }
    ensures pass { Continues lock.now pass.old pass.new }
    ensures mine { OnErr result ((view_of pass.new).mine ≡ (view_of pass.old).mine) }
    ensures accepted { IfOk result
        (λ done. HasAccepted (view_of pass.old) (view_of pass.new) line changes done.at) }
    ensures one { OnOk result
        (length (view_of pass.new).mine ≡ length (view_of pass.old).mine + 1) }
    ensures few { OnOk result (length (view_of pass.new).mine ≤ max_entries) }
    ensures unready { IfOk result (λ done. HasLeft (view_of pass.new) changes done.unready) }
    ensures refused { IfErr result
        (IsGroupRefused (view_of pass.old) (view_of pass.new) line changes) }
{
    let seat = pass.number();
    let entry = Entry {
        seat,
        line,
        changes,
    };
    pass.intent(rt, lock);
    let outcome = change_with_intent(rt, alloc, lock, pass, entry);
    pass.release(lock);
    outcome
}

/// Puts an entry in under an intent, where none of its changes is refused.
fn change_with_intent<R: Wait>(
    rt: &R,
    alloc: Global,
    lock: &ActionLock<IdeHome>,
    pass: &mut Pass<IdeHome>,
    entry: Entry,
) -> Result<Accepted, GroupChangeRefusal>
    requires intends { Intends lock.now pass.old }
    requires own { (view_of pass.old).number ≡ Some entry.seat }
    requires edits { list_all is_edit entry.changes ≡ true }
    ensures pass { Intends lock.now pass.new × IsSamePass pass.old pass.new }
    ensures advances { Advances (view_of pass.old) (view_of pass.new) }
    ensures mine { OnErr result ((view_of pass.new).mine ≡ (view_of pass.old).mine) }
    ensures accepted { IfOk result
        (λ done. HasAccepted (view_of pass.old)
        (view_of pass.new) entry.line entry.changes done.at) }
    ensures one { OnOk result
        (length (view_of pass.new).mine ≡ length (view_of pass.old).mine + 1) }
    ensures few { OnOk result (length (view_of pass.new).mine ≤ max_entries) }
    ensures unready { IfOk result (λ done. HasLeft (view_of pass.new) entry.changes done.unready) }
    ensures refused { IfErr result
        (IsGroupRefused (view_of pass.old) (view_of pass.new) entry.line entry.changes) }
{
    let planned = plan(rt, alloc, lock, pass, &entry.changes)?;
    match write_entry(rt, lock, pass, planned.ready, entry) {
        Ok(unready) => Ok(Accepted {
            at: planned.at + 1,
            unready,
        }),
        Err(_) => Err(GroupChangeRefusal::OutOfMemory),
    }
}
