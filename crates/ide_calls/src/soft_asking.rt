//! Questions that end early where a write waits.
ghost use Rattle.std.specs.Prelude.{◌≡◌, ◌<◌, IfOk, IfErr, OnOk};
ghost use Rattle.action_lock.specs.Passes.{view_of, IsPassOf};
ghost use Rattle.ide_calls.specs.Made.{Continues};
ghost use Rattle.ide_calls.specs.Replied.{HasReplied};
ghost use Rattle.ide_calls.specs.SoftRefusal.{HasGivenWay, IsSoftlyRefused};

use crate::IdeHome;
use crate::question::Question;
use crate::replied::Replied;
use crate::sighted::Sighted;
use crate::soft_refusal::SoftAskRefusal;
use action_lock::{ActionLock, Gate, Pass};
use history_laws::laws::histories_go_on;
use nonblocking_read::{SoftRefusal, soft};
use queries::Query;
use std::alloc::Global;
use std::sync::Wait;

/// Answers a question as `ask` does, but gives way to writes: an attempt that sees that one waits ends, and after
/// `attempts` of them the call ends too. An answer comes from a read that looked as often as the question owes, and saw none. May block.
pub fn soft_ask<R: Wait, G: Gate>(
    rt: &R,
    alloc: Global,
    lock: &ActionLock<IdeHome>,
    pass: &mut Pass<IdeHome>,
    attempts: u32,
    query: &Query,
    gate: &G,
) -> Result<Replied, SoftAskRefusal>
    requires pass { IsPassOf lock.now pass.old }
    requires some { 0 < attempts }
    ensures pass { Continues lock.now pass.old pass.new }
    ensures mine { (view_of pass.new).mine ≡ (view_of pass.old).mine }
    ensures ok { IfOk result (HasReplied (view_of pass.old) (view_of pass.new) query.now) }
    ensures gave_way { OnOk result
        (HasGivenWay attempts query.now (view_of pass.old) (view_of pass.new)) }
    ensures refused { IfErr result
        (IsSoftlyRefused (view_of pass.old) (view_of pass.new) attempts) }
{
    histories_go_on();
    let seat = pass.number();
    let before = pass.sights();
    let mut work = Question { query };
    match soft(rt, alloc, lock, pass, attempts, &mut work, gate) {
        Ok(replied) => Ok(replied),
        Err(SoftRefusal::Cancelled { attempts }) => Err(SoftAskRefusal::Cancelled(Sighted::new(
            seat,
            attempts,
            before,
            pass.sights(),
        ))),
        Err(SoftRefusal::OutOfMemory) => Err(SoftAskRefusal::OutOfMemory),
    }
}
