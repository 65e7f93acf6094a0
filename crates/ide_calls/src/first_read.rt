//! The first read of a step: what there is to do.
ghost use Rattle.std.specs.Prelude.{IfOk};
ghost use Rattle.action_lock.specs.Passes.{view_of, IsSamePass, IsPassOf};
ghost use Rattle.ide_calls.specs.Reads.{HasOnlyLearned};
ghost use Rattle.ide_calls.specs.Intake.{HasReadFirst, IsFirstRead};

use crate::IdeHome;
use crate::choice::find_work;
use crate::entries::entries;
use action_lock::{ActionLock, Gate, Pass, Point};
use ide_world::{Job, State};
use std::alloc::{AllocError, Global};
use std::sync::Wait;

/// How long the history was, and the job of the file that is to be indexed, if one is unready.
#[derive(Drop)]
pub(crate) struct FirstRead {
    pub(crate) at: u64,
    pub(crate) job: Option<Job>,
}

/// Reads, without the intent, and looks for a file to index by the pass, whose number is `seat`.
pub(crate) fn first_read<R: Wait, G: Gate>(
    rt: &R,
    alloc: Global,
    lock: &ActionLock<IdeHome>,
    pass: &mut Pass<IdeHome>,
    seat: u32,
    hint: Option<u32>,
    gate: &G,
) -> Result<FirstRead, AllocError>
    requires { IsPassOf lock.now pass.old }
    ensures pass { IsPassOf lock.now pass.new × IsSamePass pass.old pass.new }
    ensures learned { HasOnlyLearned (view_of pass.old) (view_of pass.new) }
    ensures ok { IfOk result (HasReadFirst seat hint (view_of pass.old) (view_of pass.new)) }
{
    let reading = pass.read(rt, alloc, lock)?;
    let found = found_in(reading.share().state(), seat, hint);
    gate.at(Point::Reading { seat });
    reading.leave();
    found
}

/// What there is to do in a state.
fn found_in(state: &State, seat: u32, hint: Option<u32>) -> Result<FirstRead, AllocError>
    ensures { IfOk result (IsFirstRead state.now.world seat hint) }
{
    Ok(FirstRead {
        at: entries(state),
        job: find_work(state, seat, hint)?,
    })
}
