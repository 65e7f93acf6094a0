//! Reads of a pass: one attempt, one that waits, attempts until a write waits, and a soft read.
ghost use Rattle.std.specs.Prelude.{◌≡◌};
ghost use Rattle.action_lock.specs.Passes.{IsPassOf, view_of};
ghost use Rattle.action_lock.specs.Readings.{IsReading, IsSameRead, loan_of, pass_of};
ghost use Rattle.action_lock.specs.Reads.{HasLooked};

use crate::acts::Told;
use crate::board::Board;
use crate::clock::{TURNS, strikes};
use crate::count::{Count, NoGate};
use action_lock::{ActionLock, Pass, ReadRefusal, Reading};
use nonblocking_read::{SoftRefusal, Work, soft};
use std::alloc::Global;
use std::sync::Wait;
use std::sync::atomic::AtomicU64;
use std::thread;

/// Works on the share of a read, which is lent it with its watch, and stays until so many beats.
fn stay<'a>(alloc: Global, reading: &mut Reading<'a, Board>, mut work: Count, until: u64) -> Told
    requires { IsReading reading.old }
    ensures same_reference { loan_of reading.new ≡ loan_of reading.old }
    ensures same { IsReading reading.new × IsSameRead reading.old reading.new }
    ensures view { HasLooked (view_of (pass_of reading.old)) (view_of (pass_of reading.new)) }
{
    let share = reading.apart();
    let made = work.run(alloc, &share, reading);
    reading.together(share);
    if made.is_err() {
        return Told::Seen;
    }
    if strikes(work.clock, until) {
        Told::Found(reading.share().len())
    } else {
        Told::Late
    }
}

/// One attempt to read.
pub fn read_once(
    alloc: Global,
    lock: &ActionLock<Board>,
    pass: &mut Pass<Board>,
    work: Count,
    until: u64,
) -> Told
    requires { IsPassOf lock.now pass.old }
    ensures { IsPassOf lock.now pass.new × ((view_of pass.new).number ≡ (view_of pass.old).number) }
{
    match pass.try_read(alloc, lock) {
        Ok(mut reading) => {
            let told = stay(alloc, &mut reading, work, until);
            reading.leave();
            told
        }
        Err(ReadRefusal::Pending { word }) => Told::Pending(word),
        Err(ReadRefusal::Turn { word }) => Told::Turn(word),
        Err(ReadRefusal::OutOfMemory) => Told::Lacks,
    }
}

/// A read that waits until it is let in, and looks whether a write waits.
pub fn read_waiting<R: Wait>(
    rt: &R,
    alloc: Global,
    lock: &ActionLock<Board>,
    pass: &mut Pass<Board>,
) -> Told
    requires { IsPassOf lock.now pass.old }
    ensures { IsPassOf lock.now pass.new × ((view_of pass.new).number ≡ (view_of pass.old).number) }
{
    match pass.read(rt, alloc, lock) {
        Ok(mut reading) => {
            let notes = reading.share().len();
            let seen = reading.check();
            reading.leave();
            if seen { Told::Seen } else { Told::Found(notes) }
        }
        Err(_) => Told::Lacks,
    }
}

/// What the first attempt to read is told that isn't let in, before the turns run out.
pub fn read_until_refused(alloc: Global, lock: &ActionLock<Board>, pass: &mut Pass<Board>) -> Told
    requires { IsPassOf lock.now pass.old }
    ensures { IsPassOf lock.now pass.new × ((view_of pass.new).number ≡ (view_of pass.old).number) }
{
    let aside = AtomicU64::new(0);
    for _ in 0..TURNS {
        let work = Count {
            clock: &aside,
            more_looks: 0,
        };
        if let Told::Pending(word) = read_once(alloc, lock, pass, work, 0) {
            return Told::Pending(word);
        }
        thread::yield_now();
    }
    Told::Late
}

/// A soft read.
pub fn read_softly<R: Wait>(
    rt: &R,
    alloc: Global,
    lock: &ActionLock<Board>,
    pass: &mut Pass<Board>,
    mut work: Count,
    attempts: u32,
) -> Told
    requires { IsPassOf lock.now pass.old }
    ensures { IsPassOf lock.now pass.new × ((view_of pass.new).number ≡ (view_of pass.old).number) }
{
    match soft(
        rt,
        alloc,
        lock,
        pass,
        attempts.max(1),
        &mut work,
        &NoGate {},
    ) {
        Ok(notes) => Told::Found(notes),
        Err(SoftRefusal::Cancelled { attempts }) => Told::Cancelled(attempts),
        Err(SoftRefusal::OutOfMemory) => Told::Lacks,
    }
}
