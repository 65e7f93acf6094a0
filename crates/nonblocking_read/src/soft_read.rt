//! The soft read: attempts until one gives an answer, or too many saw that a write waits.
ghost use Rattle.std.specs.Prelude.{◌<◌, ◌↔◌, ℕ, List, IfOk};
ghost use Rattle.action_lock.specs.Passes.{view_of, IsSamePass, IsPassOf};
ghost use Rattle.nonblocking_read.specs.Attempts.{SpendsAfter};
ghost use Rattle.nonblocking_read.specs.Polled.{HasSpent};
ghost use Rattle.nonblocking_read.specs.Soft.{HasOnlyRead, HasReadLast};

use crate::attempt::{Miss, attempt};
use crate::work::Work;
use action_lock::{ActionLock, Gate, Home, Pass};
use std::alloc::Global;
use std::sync::Wait;

/// Why a soft read gave no answer.
#[derive(Clone, Copy, Debug, PartialEq, Eq)]
pub enum SoftRefusal {
    /// So many attempts, as many as were allowed, saw that a write waits.
    Cancelled { attempts: u32 },
    /// Memory ran out.
    OutOfMemory,
}

/// Reads and works until an attempt gives an answer, or `attempts` of them saw that a write waits. Behind one that saw it the call waits until
/// that write is through, 100 milliseconds at most, so that one write doesn't use up several attempts. One that finds another seat's turn is
/// tried again and not counted. May block.
pub fn soft<R: Wait, H: Home, K: Work<H>, G: Gate>(
    rt: &R,
    alloc: Global,
    lock: &ActionLock<H>,
    pass: &mut Pass<H>,
    attempts: u32,
    work: &mut K,
    gate: &G,
) -> Result<K::Out, SoftRefusal>
    requires pass { IsPassOf lock.now pass.old }
    requires some { 0 < attempts }
    ensures pass { IsPassOf lock.now pass.new × IsSamePass pass.old pass.new }
    ensures view { HasOnlyRead (view_of pass.old) (view_of pass.new) }
    ensures meaning { (out : K.Out) (entries : List H.Entry)
        → K.fits work.old out entries ↔ K.fits work.new out entries }
    ensures owed { (entries : List H.Entry) (n : ℕ)
        → K.owes work.old entries n ↔ K.owes work.new entries n }
    ensures ok { IfOk result
        (λ out. (looks : ℕ) × K.fits work.old out (view_of pass.new).seen
        × K.owes work.old (view_of pass.new).seen looks
        × HasReadLast H.number_of looks (view_of pass.old) (view_of pass.new)) }
    ensures spent { HasSpent result attempts (view_of pass.old).sights (view_of pass.new).sights }
{
    let mut spent = 0;
    for _ in rt.forever() {
        match attempt(alloc, lock, pass, work, gate) {
            Ok(out) => return Ok(out),
            Err(miss) => {
                spent = spent_after(miss, spent, attempts)?;
                wait_after(rt, lock, pass, miss);
            }
        }
    }
    unreachable!()
}

/// How many attempts saw that a write waits, this one that missed among them; or the refusal, where no more may follow.
fn spent_after(miss: Miss, spent: u32, attempts: u32) -> Result<u32, SoftRefusal>
    requires { spent < attempts }
    ensures { SpendsAfter miss spent attempts result }
{
    match miss {
        Miss::OutOfMemory => Err(SoftRefusal::OutOfMemory),
        Miss::Turn => Ok(spent),
        Miss::Seen => {
            if spent + 1 == attempts {
                Err(SoftRefusal::Cancelled { attempts })
            } else {
                Ok(spent + 1)
            }
        }
    }
}

/// Waits until another attempt may do better than one that missed so.
fn wait_after<R: Wait, H: Home>(rt: &R, lock: &ActionLock<H>, pass: &Pass<H>, miss: Miss) {
    match miss {
        Miss::Seen => lock.wait_for_mark(rt, pass),
        Miss::Turn => lock.pause(pass),
        Miss::OutOfMemory => {}
    }
}
