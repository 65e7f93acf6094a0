//! Changes are made ready on what a read under an intent found.
ghost use Rattle.std.specs.Prelude.{◌≡◌, true, IfOk, IfErr};
ghost use Rattle.std.specs.List.{list_all};
ghost use Rattle.action_lock.specs.Passes.{view_of, IsSamePass, Intends};
ghost use Rattle.write_history.specs.Changes.{is_edit};
ghost use Rattle.ide_calls.specs.Planned.{IsPlanned, IsRefusedIn, HasPlanned, IsUnplanned};

use crate::IdeHome;
use crate::group_refusal::GroupChangeRefusal;
use action_lock::{ActionLock, Pass};
use ide_world::{Ready, State, prepare_group};
use std::alloc::Global;
use std::sync::Wait;
use write_history::{Changes, Refusal};

/// Changes that are ready to go in behind a prefix of the history.
#[derive(Drop)]
pub(crate) struct Planned {
    /// The length of the prefix.
    pub(crate) at: u64,
    pub(crate) ready: Ready,
}

/// Reads under an intent, and makes the changes ready on what it finds, or refuses them by it.
pub(crate) fn plan<R: Wait>(
    rt: &R,
    alloc: Global,
    lock: &ActionLock<IdeHome>,
    pass: &mut Pass<IdeHome>,
    changes: &Changes,
) -> Result<Planned, GroupChangeRefusal>
    requires intends { Intends lock.now pass.old }
    requires edits { list_all is_edit changes.now ≡ true }
    ensures pass { Intends lock.now pass.new × IsSamePass pass.old pass.new }
    ensures ok { IfOk result (HasPlanned (view_of pass.old) (view_of pass.new) changes.now) }
    ensures refused { IfErr result (IsUnplanned (view_of pass.old) (view_of pass.new) changes.now) }
{
    match pass.read(rt, alloc, lock) {
        Ok(reading) => {
            let planned = plan_in(alloc, reading.share().state(), changes);
            reading.leave();
            planned
        }
        Err(_) => Err(GroupChangeRefusal::OutOfMemory),
    }
}

/// Makes the changes ready in a state, or refuses them by it.
fn plan_in(alloc: Global, state: &State, changes: &Changes) -> Result<Planned, GroupChangeRefusal>
    requires { list_all is_edit changes.now ≡ true }
    ensures ok { IfOk result (IsPlanned state.now.world changes.now) }
    ensures refused { IfErr result (IsRefusedIn state.now.world changes.now) }
{
    let at = state.entries();
    match prepare_group(alloc, state, changes.as_slice()) {
        Ok(ready) => Ok(Planned { at, ready }),
        Err(refusal) if refusal.why == Refusal::OutOfMemory => Err(GroupChangeRefusal::OutOfMemory),
        Err(refusal) => Err(GroupChangeRefusal::Refused {
            at,
            place: refusal.place,
            why: refusal.why,
        }),
    }
}
