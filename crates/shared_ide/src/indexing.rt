//! Indexing of the shared workspace.
ghost use Rattle.std.specs.Prelude.{◌≡◌, ℕ, IfOk, IfErr, OnErr, Option, Some};
ghost use Rattle.job_queue.specs.declared.hint.Hint.{Hint};
ghost use Rattle.job_queue.specs.Passes.{queue_view};
ghost use Rattle.ide_calls.specs.Settling.{IsSettled, HasStopped};
ghost use Rattle.ide_calls.specs.Step.{HasStepped};
ghost use Rattle.index_workers.specs.Hints.{HasPopped, IsFirstTried, HasOnlyPopped};
ghost use Rattle.index_workers.specs.Passes.{ide_view};
ghost use Rattle.index_workers.specs.Work.{HasWorked, HasWorkedInPart};
ghost use Rattle.shared_ide.specs.Passes.{IsIdePassOf, Continues};

use crate::shared::SharedIde;
use action_lock::Gate;
use ide_calls::{SettleRefusal, Stepped};
use index_workers::{IdePass, Worked};
use std::alloc::{AllocError, Global};
use std::sync::Wait;
use std::thread::Threads;

impl SharedIde {
    /// Takes every unready file in, in order of ids, one entry each, for a line of a script. It answers with the number of
    /// entries after which no file is unready. On more than one processor, index data of the files to come are made on
    /// threads of their own meanwhile. May block.
    pub fn settle<R: Threads + Wait>(
        &self,
        rt: &R,
        alloc: Global,
        pass: &mut IdePass,
        line: u32,
    ) -> Result<u64, SettleRefusal>
        requires { IsIdePassOf self.now pass.old }
        ensures pass { Continues self.now pass.old pass.new }
        ensures ok { IfOk result (IsSettled line (ide_view pass.old) (ide_view pass.new)) }
        ensures err { IfErr result (HasStopped line (ide_view pass.old) (ide_view pass.new)) }
        ensures hints { pass.new.queue ≡ pass.old.queue }
    {
        ide_calls::settle(rt, alloc, &self.lock, &self.store, &mut pass.lock, line)
    }

    /// Takes a hint, if there is one, and does a step of indexing: of the hinted file, or without a hint of the next in a walk that
    /// all workers share, if that is unready, else of the first unready one from a place of its own on. May block.
    pub fn index_step<R: Wait, G: Gate>(
        &self,
        rt: &R,
        alloc: Global,
        pass: &mut IdePass,
        gate: &G,
    ) -> Result<Stepped, AllocError>
        requires { IsIdePassOf self.now pass.old }
        ensures pass { Continues self.now pass.old pass.new }
        ensures step { (hint : Option Hint) × (file : ℕ)
            × HasPopped hint (queue_view pass.old.queue) (queue_view pass.new.queue)
            × IsFirstTried hint file
            × IfOk result (HasStepped (Some file) (ide_view pass.old) (ide_view pass.new)) }
        ensures err { OnErr result ((ide_view pass.new).mine ≡ (ide_view pass.old).mine) }
    {
        index_workers::index_step(
            rt,
            alloc,
            &self.lock,
            &self.queue,
            &self.cursor,
            &self.store,
            pass,
            gate,
        )
    }

    /// Makes steps until nothing is to be done and the gate tells it to end, or the history is full, or it has made
    /// 131,072. When memory runs out, what it made so far stays. May block.
    pub fn worker<R: Wait, G: Gate>(
        &self,
        rt: &R,
        alloc: Global,
        pass: &mut IdePass,
        gate: &G,
    ) -> Result<Worked, AllocError>
        requires { IsIdePassOf self.now pass.old }
        ensures pass { Continues self.now pass.old pass.new }
        ensures hints { HasOnlyPopped (queue_view pass.old.queue) (queue_view pass.new.queue) }
        ensures ok { IfOk result
            (HasWorked (G.may_say gate.now) (ide_view pass.old) (ide_view pass.new)
            (queue_view pass.old.queue) (queue_view pass.new.queue)) }
        ensures err { OnErr result
            (HasWorkedInPart (G.may_say gate.now) (ide_view pass.old) (ide_view pass.new)
            (queue_view pass.old.queue) (queue_view pass.new.queue)) }
    {
        index_workers::worker(
            rt,
            alloc,
            &self.lock,
            &self.queue,
            &self.cursor,
            &self.store,
            pass,
            gate,
        )
    }
}
