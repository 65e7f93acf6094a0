//! What a pass does in a scene, and what it is told.
ghost use Rattle.std.specs.Prelude.{◌≡◌};
ghost use Rattle.action_lock.specs.Passes.{IsPassOf, view_of};

use crate::board::{Append, Board};
use crate::clock::strikes;
use crate::count::Count;
use crate::reads::{read_once, read_softly, read_until_refused, read_waiting};
use crate::writes::{change_once, change_twice, try_change};
use action_lock::{ActionLock, Pass};
use std::alloc::Global;
use std::sync::Wait;
use std::sync::atomic::{AtomicU64, Ordering};

/// One act of a pass. `until` says how often the clock is to have beaten before it goes on.
#[derive(Clone, Copy)]
pub enum Act {
    /// `(until)`: waits. Told whether the clock beat so often before the turns ran out.
    Await(u64),
    /// Has the clock beat. Told how often it had beaten.
    Beat,
    /// `(more_looks, until)`: one attempt to read, which looks once, has the clock beat, looks so many times more until it sees that
    /// a write waits, and stays in where it saw none. Told how many notes there are.
    Read(u64, u64),
    /// A read that waits until it is let in. Told how many notes there are.
    ReadWaiting,
    /// Attempts to read until one is told that a write waits.
    ReadUntilRefused,
    /// `(attempts, more_looks)`: a soft read, which looks as in `Read`. Told how many notes there are.
    ReadSoftly(u32, u64),
    /// `(text, until)`: gets the intent, begins to write, has the clock beat, goes on, and adds a note, or none where there is no text.
    /// Told whether it did.
    Change(Option<u64>, u64),
    /// `(text)`: adds two notes under one intent. Told whether it did.
    ChangeTwice(u64),
    /// `(held_until, text, until)`: the same as `Change`, but with one attempt to get the intent, under which it has the clock beat and
    /// waits too, before it begins to write.
    TryChange(u64, Option<u64>, u64),
    /// Told how often it has seen that a write waits.
    Sights,
    /// Told its number.
    Number,
}

/// What a pass is told.
#[derive(Clone, Copy, PartialEq, Eq)]
pub enum Told {
    /// Whether it was so.
    Is(bool),
    /// So many.
    Count(u64),
    /// It was in, and there are so many notes.
    Found(usize),
    /// It was in, and saw that a write waits.
    Seen,
    /// It was in, but the turns ran out.
    Late,
    /// A write waits: this word was found.
    Pending(u64),
    /// Another has the turn: this word was found.
    Turn(u64),
    /// There is no share.
    Lacks,
    /// So many attempts saw that a write waits.
    Cancelled(u32),
    /// Another has the intent.
    Held,
}

/// Does one act, and tells what the pass was told.
pub fn perform<R: Wait>(
    rt: &R,
    alloc: Global,
    lock: &ActionLock<Board>,
    pass: &mut Pass<Board>,
    clock: &AtomicU64,
    act: Act,
) -> Told
    requires { IsPassOf lock.now pass.old }
    ensures { IsPassOf lock.now pass.new × ((view_of pass.new).number ≡ (view_of pass.old).number) }
{
    match act {
        Act::Await(until) => Told::Is(strikes(clock, until)),
        Act::Beat => Told::Count(clock.fetch_add(1, Ordering::SeqCst)),
        Act::Read(more_looks, until) => {
            read_once(alloc, lock, pass, Count { clock, more_looks }, until)
        }
        Act::ReadWaiting => read_waiting(rt, alloc, lock, pass),
        Act::ReadUntilRefused => read_until_refused(alloc, lock, pass),
        Act::ReadSoftly(attempts, more_looks) => {
            read_softly(rt, alloc, lock, pass, Count { clock, more_looks }, attempts)
        }
        Act::Change(text, until) => {
            Told::Is(change_once(rt, lock, pass, &append(alloc, text, clock, until)))
        }
        Act::ChangeTwice(text) => {
            Told::Is(change_twice(rt, lock, pass, &append(alloc, Some(text), clock, 0)))
        }
        Act::TryChange(held_until, text, until) => {
            try_change(
                rt,
                lock,
                pass,
                &append(alloc, text, clock, until),
                held_until,
            )
        }
        Act::Sights => Told::Count(pass.sights()),
        Act::Number => Told::Count(pass.number() as u64),
    }
}

fn append<'a>(alloc: Global, text: Option<u64>, clock: &'a AtomicU64, until: u64) -> Append<'a> {
    Append {
        alloc,
        text,
        clock,
        until,
    }
}
