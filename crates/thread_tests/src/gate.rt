//! The gate of the program's runs: workers with nothing to do go on until all lanes have ended.
use crate::running::script_of;
use action_lock::{Gate, Point};
use playing::LaneGate;
use script_lang::Script;
use std::alloc::{AllocError, Global};
use std::sync::Wait;

/// Whether the gate of a script with two lanes lets an idle worker go on until both have ended, and then ends it. It may block.
pub fn ends_with_its_lanes<R: Wait>(rt: &R, alloc: Global) -> Result<bool, AllocError> {
    let script = script_of(alloc, "lane\nstatus\nlane\nstatus\n".as_bytes())?;
    Ok(ends_with_lanes_of(rt, &script))
}

/// The same of a script with these lanes.
fn ends_with_lanes_of<R: Wait>(rt: &R, script: &Script) -> bool {
    let gate = LaneGate::new(rt, script);
    let idle = Point::Idle { seat: 3 };
    let at_first = gate.at(idle);
    gate.at(Point::Ended { seat: 3 });
    gate.at(Point::Ended { seat: 1 });
    let behind_one = gate.at(idle);
    gate.at(Point::Ended { seat: 2 });
    at_first && behind_one && !gate.at(idle)
}
