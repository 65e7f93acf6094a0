//! The command of one line.
ghost use Rattle.std.specs.Prelude.{◌≡◌, IfOk, OnOk};
ghost use Rattle.script_lang.specs.Held.{IsOfLine};
ghost use Rattle.shared_ide.specs.Passes.{ide_view};
ghost use Rattle.shared_ide.specs.Passes.{IsIdePassOf, Continues};
ghost use Rattle.playing.specs.Answered.{IsLineAnswered, HasAnsweredLine};

use crate::asking::{do_ask, do_soft_ask};
use crate::changing::{do_change, do_group, do_load};
use crate::settling::do_settle;
use action_lock::{Gate, Point};
use script_lang::{Command, Line};
use shared_ide::{IdePass, SharedIde};
use std::alloc::{AllocError, Global};
use std::sync::Wait;
use std::thread::Threads;
use transcripts::{Answer, Loaded, Record, Records};

/// Does the command of a line, for which this was read, and adds its record. The gate is told `Start` before, but for
/// seat 0. May block.
pub(crate) fn do_line<R: Threads + Wait, G: Gate>(
    rt: &R,
    alloc: Global,
    ide: &SharedIde,
    pass: &mut IdePass,
    seat: u32,
    line: &Line,
    load: &Loaded,
    beside: bool,
    records: &mut Records,
    gate: &G,
) -> Result<(), AllocError>
    requires pass { IsIdePassOf ide.now pass.old }
    requires command { IsOfLine line.now.command }
    ensures pass { Continues ide.now pass.old pass.new }
    ensures answered { OnOk result
        (HasAnsweredLine beside seat line.now load.now (ide_view pass.old)
        (ide_view pass.new) records.old records.new) }
{
    tell_start(gate, seat, line.number);
    let answer = answer_line(rt, alloc, ide, pass, line, load, beside, gate)?;
    records.push(Record {
        seat,
        line: line.number,
        answer,
    })
}

/// Tells the gate that a lane is about to begin the command of a line. Seat 0 is no lane's.
fn tell_start<G: Gate>(gate: &G, seat: u32, line: u32) {
    if seat > 0 {
        gate.at(Point::Start { seat, line });
    }
}

/// Does the command of a line, for which this was read, and answers it. May block.
fn answer_line<R: Threads + Wait, G: Gate>(
    rt: &R,
    alloc: Global,
    ide: &SharedIde,
    pass: &mut IdePass,
    line: &Line,
    load: &Loaded,
    beside: bool,
    gate: &G,
) -> Result<Answer, AllocError>
    requires pass { IsIdePassOf ide.now pass.old }
    requires command { IsOfLine line.now.command }
    ensures pass { Continues ide.now pass.old pass.new }
    ensures answer { IfOk result
        (IsLineAnswered beside line.now load.now (ide_view pass.old) (ide_view pass.new)) }
{
    let number = line.number;
    match &line.command {
        Command::Change(change) => do_change(rt, alloc, ide, pass, number, change.copy()?),
        Command::Group(changes) => do_group(rt, alloc, ide, pass, number, changes.copy()?),
        Command::Load { path } => do_load(rt, alloc, ide, pass, number, path, load),
        Command::Settle => do_settle(rt, alloc, ide, pass, number),
        Command::Ask(query) => do_ask(rt, alloc, ide, pass, query, gate),
        Command::Soft { attempts, query } if beside => {
            do_soft_ask(rt, alloc, ide, pass, *attempts, query, gate)
        }
        Command::Soft { attempts: _, query } => do_ask(rt, alloc, ide, pass, query, gate),
    }
}
