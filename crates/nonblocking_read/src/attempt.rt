//! One attempt of a soft read.
ghost use Rattle.std.specs.Prelude.{◌≡◌, ◌↔◌, ℕ, List, IfOk};
ghost use Rattle.action_lock.specs.Passes.{view_of, IsSamePass, IsPassOf};
ghost use Rattle.action_lock.specs.Readings.{IsReading, IsSameRead, loan_of, pass_of};
ghost use Rattle.action_lock.specs.Reads.{HasLooked};
ghost use Rattle.nonblocking_read.specs.Attempts.{SeesBy, outcome_of, miss_of, IsMade};
ghost use Rattle.nonblocking_read.specs.Soft.{HasOnlyRead, HasReadLast};

use crate::work::{Stopped, Work};
use action_lock::{ActionLock, Gate, Home, Pass, Point, ReadRefusal, Reading};
use std::alloc::Global;

/// Why an attempt gave no answer.
#[derive(Clone, Copy)]
pub(crate) enum Miss {
    /// The pending mark was seen, at the gate or by the work.
    Seen,
    /// Another seat had the turn.
    Turn,
    OutOfMemory,
}

/// Enters, works, and leaves.
pub(crate) fn attempt<H: Home, K: Work<H>, G: Gate>(
    alloc: Global,
    lock: &ActionLock<H>,
    pass: &mut Pass<H>,
    work: &mut K,
    gate: &G,
) -> Result<K::Out, Miss>
    requires { IsPassOf lock.now pass.old }
    ensures pass { IsPassOf lock.now pass.new × IsSamePass pass.old pass.new }
    ensures view { HasOnlyRead (view_of pass.old) (view_of pass.new) }
    ensures meaning { (out : K.Out) (entries : List H.Entry)
        → K.fits work.old out entries ↔ K.fits work.new out entries }
    ensures owed { (entries : List H.Entry) (n : ℕ)
        → K.owes work.old entries n ↔ K.owes work.new entries n }
    ensures ok { IfOk result
        (λ out. (looks : ℕ) × K.fits work.old out (view_of pass.new).seen
        × K.owes work.old (view_of pass.new).seen looks
        × HasReadLast H.number_of looks (view_of pass.old) (view_of pass.new)) }
    ensures sights { SeesBy result (view_of pass.old).sights (view_of pass.new).sights }
{
    let seat = pass.number();
    match pass.try_read(alloc, lock) {
        Ok(mut reading) => {
            let made = work_in(alloc, seat, &mut reading, work, gate);
            reading.leave();
            made
        }
        Err(refusal) => Err(miss_of(refusal)),
    }
}

/// Works on the share of an open read, which keeps it.
fn work_in<'a, H: Home, K: Work<H>, G: Gate>(
    alloc: Global,
    seat: u32,
    reading: &mut Reading<'a, H>,
    work: &mut K,
    gate: &G,
) -> Result<K::Out, Miss>
    requires { IsReading reading.old }
    ensures same_reference { loan_of reading.new ≡ loan_of reading.old }
    ensures same { IsReading reading.new × IsSameRead reading.old reading.new }
    ensures view { HasLooked (view_of (pass_of reading.old)) (view_of (pass_of reading.new)) }
    ensures meaning { (out : K.Out) (entries : List H.Entry)
        → K.fits work.old out entries ↔ K.fits work.new out entries }
    ensures owed { (entries : List H.Entry) (n : ℕ)
        → K.owes work.old entries n ↔ K.owes work.new entries n }
    ensures ok { IfOk result (λ out. K.fits work.old out (view_of (pass_of reading.new)).seen) }
    ensures polled { (looks : ℕ) × K.owes work.old (view_of (pass_of reading.new)).seen looks
        × IsMade result looks (view_of (pass_of reading.old)) (view_of (pass_of reading.new)) }
{
    let share = reading.apart();
    let made = work.run(alloc, &share, reading);
    reading.together(share);
    tell(gate, seat, &made);
    outcome(made)
}

/// Tells the gate that the read is open where the work has its answer.
fn tell<T, G: Gate>(gate: &G, seat: u32, made: &Result<T, Stopped>) {
    if made.is_ok() {
        gate.at(Point::Reading { seat });
    }
}

/// What an attempt gives whose work gave this.
fn outcome<T>(made: Result<T, Stopped>) -> Result<T, Miss>
    ensures { result ≡ outcome_of made }
{
    match made {
        Ok(out) => Ok(out),
        Err(Stopped::Seen) => Err(Miss::Seen),
        Err(Stopped::OutOfMemory) => Err(Miss::OutOfMemory),
    }
}

/// Why an attempt gives no answer whose read was refused.
fn miss_of(refusal: ReadRefusal) -> Miss
    ensures { result ≡ miss_of refusal }
{
    match refusal {
        ReadRefusal::Pending { word: _ } => Miss::Seen,
        ReadRefusal::Turn { word: _ } => Miss::Turn,
        ReadRefusal::OutOfMemory => Miss::OutOfMemory,
    }
}
