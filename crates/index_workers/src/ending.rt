//! What a worker counts of a step, and whether it goes on after it.
ghost use Rattle.std.specs.Prelude.{◌≡◌, MatchOption};
ghost use Rattle.index_workers.specs.Work.{GoesOn, IsEndOf, taken_by};

use crate::worked::End;
use action_lock::{Gate, Point};
use ide_calls::Stepped;

/// How many entries the step made.
pub(crate) fn taken(step: &Stepped) -> u32
    ensures { result ≡ taken_by step.now }
{
    match *step {
        Stepped::Taken { position: _ } => 1,
        Stepped::Idle { at: _ } => 0,
        Stepped::Gone { file: _ } => 0,
        Stepped::Stale {
            file: _,
            made: _,
            present: _,
        } => 0,
        Stepped::Refused { at: _ } => 0,
    }
}

/// Whether the worker ends with this step: where it is refused, and where nothing was to be done and the gate tells it so.
pub(crate) fn end_of<G: Gate>(gate: &G, seat: u32, step: &Stepped) -> Option<End>
    ensures { MatchOption result (GoesOn (G.may_say gate.now) seat step.now)
        (IsEndOf (G.may_say gate.now) seat step.now) }
{
    match *step {
        Stepped::Idle { at } => {
            if gate.at(Point::Idle { seat }) {
                None
            } else {
                Some(End::Idle { at })
            }
        }
        Stepped::Refused { at } => Some(End::Refused { at }),
        Stepped::Gone { file: _ } => None,
        Stepped::Stale {
            file: _,
            made: _,
            present: _,
        } => None,
        Stepped::Taken { position: _ } => None,
    }
}
