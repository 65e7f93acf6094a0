//! Questions that wait until they are let in, and are then answered.
ghost use Rattle.std.specs.Prelude.{◌≡◌, IfOk};
ghost use Rattle.action_lock.specs.Passes.{view_of, IsPassOf};
ghost use Rattle.ide_calls.specs.Made.{Continues};
ghost use Rattle.ide_calls.specs.Replied.{IsRepliedIn, HasReplied};

use crate::IdeHome;
use crate::answering::reply_by;
use crate::replied::Replied;
use action_lock::{ActionLock, Gate, Pass, Point};
use ide_world::State;
use nonblocking_read::Stopped;
use queries::Query;
use query_engine::NoWatch;
use std::alloc::{AllocError, Global};
use std::sync::Wait;

/// Answers a question by the whole history of a moment of this call. The gate is told `Reading` while the read is open.
/// May block.
pub fn ask<R: Wait, G: Gate>(
    rt: &R,
    alloc: Global,
    lock: &ActionLock<IdeHome>,
    pass: &mut Pass<IdeHome>,
    query: &Query,
    gate: &G,
) -> Result<Replied, AllocError>
    requires { IsPassOf lock.now pass.old }
    ensures pass { Continues lock.now pass.old pass.new }
    ensures mine { (view_of pass.new).mine ≡ (view_of pass.old).mine }
    ensures ok { IfOk result (HasReplied (view_of pass.old) (view_of pass.new) query.now) }
{
    let seat = pass.number();
    match pass.read(rt, alloc, lock) {
        Ok(reading) => {
            let replied = reply_to_end(alloc, reading.share().state(), query);
            if replied.is_ok() {
                gate.at(Point::Reading { seat });
            }
            reading.leave();
            replied
        }
        Err(refused) => Err(refused),
    }
}

/// Answers a question, and can't be stopped.
fn reply_to_end(alloc: Global, state: &State, query: &Query) -> Result<Replied, AllocError>
    ensures { IfOk result (IsRepliedIn state.now.world query.now) }
{
    match reply_by(alloc, state, query, &mut NoWatch::new()) {
        Ok(replied) => Ok(replied),
        Err(Stopped::OutOfMemory) => Err(AllocError),
        Err(Stopped::Seen) => unreachable!(),
    }
}
