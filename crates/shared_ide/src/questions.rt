//! Questions about the shared workspace.
ghost use Rattle.std.specs.Prelude.{◌≡◌, ◌<◌, IfOk, IfErr, OnOk};
ghost use Rattle.ide_calls.specs.Replied.{HasReplied};
ghost use Rattle.ide_calls.specs.SoftRefusal.{HasGivenWay, IsSoftlyRefused};
ghost use Rattle.index_workers.specs.Passes.{ide_view};
ghost use Rattle.shared_ide.specs.Passes.{IsIdePassOf, Continues};

use crate::shared::SharedIde;
use action_lock::Gate;
use ide_calls::{Replied, SoftAskRefusal};
use index_workers::IdePass;
use queries::Query;
use std::alloc::{AllocError, Global};
use std::sync::Wait;

impl SharedIde {
    /// Answers a question by the whole history of a moment of this call. The gate is told `Reading` while the read is open.
    /// May block.
    pub fn ask<R: Wait, G: Gate>(
        &self,
        rt: &R,
        alloc: Global,
        pass: &mut IdePass,
        query: &Query,
        gate: &G,
    ) -> Result<Replied, AllocError>
        requires { IsIdePassOf self.now pass.old }
        ensures pass { Continues self.now pass.old pass.new }
        ensures mine { (ide_view pass.new).mine ≡ (ide_view pass.old).mine }
        ensures ok { IfOk result (HasReplied (ide_view pass.old) (ide_view pass.new) query.now) }
        ensures hints { pass.new.queue ≡ pass.old.queue }
    {
        ide_calls::ask(rt, alloc, &self.lock, &mut pass.lock, query, gate)
    }

    /// Answers a question as `ask` does, but gives way to writes: an attempt that sees that one waits ends, and after
    /// `attempts` of them the call ends too; between two of them it waits for the write that it gave way to, 100 milliseconds at most. An answer
    /// comes from a read that looked whether a write waits as often as the question owes (`looks_after`), and saw none. May block.
    pub fn soft_ask<R: Wait, G: Gate>(
        &self,
        rt: &R,
        alloc: Global,
        pass: &mut IdePass,
        attempts: u32,
        query: &Query,
        gate: &G,
    ) -> Result<Replied, SoftAskRefusal>
        requires pass { IsIdePassOf self.now pass.old }
        requires some { 0 < attempts }
        ensures pass { Continues self.now pass.old pass.new }
        ensures mine { (ide_view pass.new).mine ≡ (ide_view pass.old).mine }
        ensures ok { IfOk result (HasReplied (ide_view pass.old) (ide_view pass.new) query.now) }
        ensures gave_way { OnOk result
            (HasGivenWay attempts query.now (ide_view pass.old) (ide_view pass.new)) }
        ensures refused { IfErr result
            (IsSoftlyRefused (ide_view pass.old) (ide_view pass.new) attempts) }
        ensures hints { pass.new.queue ≡ pass.old.queue }
    {
        ide_calls::soft_ask(rt, alloc, &self.lock, &mut pass.lock, attempts, query, gate)
    }
}
