//! A player of a round: a pass, and what is done with it on a thread of its own.
ghost use Rattle.std.specs.Prelude.{◌≡◌, Some};
ghost use Rattle.script_lang.specs.Held.{AreOfSection};
ghost use Rattle.shared_ide.specs.Passes.{ide_view};
ghost use Rattle.shared_ide.specs.Passes.{IsIdePassOf, Continues};
ghost use Rattle.playing.specs.Players.{CanRun, HasRun, MayHaveDone, MayHaveWorked};

use crate::do_section;
use action_lock::{Gate, Point};
use crossbeam_utils::CachePadded;
use script_lang::{Line, Script};
use shared_ide::laws::workers_may_have_any_gate;
use shared_ide::{IdePass, SharedIde, Worked};
use std::alloc::{AllocError, Global};
use std::sync::Wait;
use std::thread::Threads;
use transcripts::Records;

/// What the pass of a player is for.
#[derive(Clone, Copy)]
pub(crate) enum Duty {
    /// The lane of the script with this index.
    Lane { index: usize },
    Worker,
}

/// What was done with the pass of a player.
#[derive(Drop)]
pub(crate) enum Outcome {
    /// Nothing that can be told: it has yet to run, or memory ran out.
    Nothing,
    /// The records of a lane.
    Answered { records: Records },
    /// What a worker did.
    Indexed { worked: Worked },
}

/// A pass, what it is for, and what was done with it. Players lie side by side, and each is changed by a thread of its own.
pub(crate) struct Player {
    pub(crate) pass: IdePass,
    pub(crate) duty: Duty,
    pub(crate) outcome: Outcome,
    /// Keeps the next player off the cache lines of this one.
    pub(crate) apart: CachePadded<()>,
}

/// Does what a player is for, and tells the gate that it has ended. May block.
pub(crate) fn run_player<R: Threads + Wait, G: Gate>(
    rt: &R,
    alloc: Global,
    ide: &SharedIde,
    script: &Script,
    beside: bool,
    player: &mut Player,
    gate: &G,
)
    requires { CanRun ide.now script.now player.old }
    ensures { HasRun ide.now script.now beside player.old player.new }
{
    let seat = player.pass.number();
    player.outcome = match player.duty {
        Duty::Lane { index } => do_lane(
            rt,
            alloc,
            ide,
            &mut player.pass,
            seat,
            script.lane(index),
            beside,
            gate,
        ),
        Duty::Worker => do_worker(rt, alloc, ide, &mut player.pass, gate),
    };
    gate.at(Point::Ended { seat });
}

/// Does the lines of a lane. May block.
fn do_lane<R: Threads + Wait, G: Gate>(
    rt: &R,
    alloc: Global,
    ide: &SharedIde,
    pass: &mut IdePass,
    seat: u32,
    lane: &[Line],
    beside: bool,
    gate: &G,
) -> Outcome
    requires pass { IsIdePassOf ide.now pass.old }
    requires seat { (ide_view pass.old).number ≡ Some seat }
    requires lines { AreOfSection lane.now }
    ensures pass { Continues ide.now pass.old pass.new }
    ensures done { MayHaveDone beside seat lane.now (ide_view pass.old) (ide_view pass.new) result }
{
    let mut records = Records::new(alloc);
    match do_section(
        rt,
        alloc,
        ide,
        pass,
        seat,
        lane,
        &[],
        beside,
        &mut records,
        gate,
    ) {
        Ok(()) => Outcome::Answered { records },
        Err(AllocError) => Outcome::Nothing,
    }
}

/// Indexes until nothing is left to do. May block.
fn do_worker<R: Wait, G: Gate>(
    rt: &R,
    alloc: Global,
    ide: &SharedIde,
    pass: &mut IdePass,
    gate: &G,
) -> Outcome
    requires { IsIdePassOf ide.now pass.old }
    ensures pass { Continues ide.now pass.old pass.new }
    ensures worked { MayHaveWorked (ide_view pass.old) (ide_view pass.new) result }
{
    workers_may_have_any_gate::<G>();
    match ide.worker(rt, alloc, pass, gate) {
        Ok(worked) => Outcome::Indexed { worked },
        Err(AllocError) => Outcome::Nothing,
    }
}
