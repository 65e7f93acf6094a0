//! Turns on the lock, in four threads at once.
ghost use Rattle.std.specs.Prelude.{◌≡◌, ◌≤◌, ◌<◌, ℕ, All, Some, slice_index_or};
ghost use Rattle.action_lock.specs.Passes.{IsPassOf, view_of};
ghost use Rattle.lock_bench.specs.Kept.{HasKept};

use crate::counter::Counter;
use crate::mode::Job;
use action_lock::{ActionLock, Pass};
use std::alloc::Global;
use std::sync::Wait;
use std::sync::atomic::{AtomicBool, Ordering};
use std::thread::{Threads, for_each_mut};

/// Reads and leaves, so many times. How often it was let in and found nothing written.
fn read_turns<R: Wait>(
    rt: &R,
    alloc: Global,
    lock: &ActionLock<Counter>,
    pass: &mut Pass<Counter>,
    turns: u64,
) -> u64
    requires { IsPassOf lock.now pass.old }
    ensures pass { IsPassOf lock.now pass.new × HasKept (view_of pass.old) (view_of pass.new) }
    ensures few { result ≤ turns }
{
    let mut done = 0;
    for turn in 0..turns {
        if finds_none(rt, alloc, lock, pass) {
            done += 1;
        }
    }
    done
}

/// One read: waits until it is let in, and answers whether nothing was written.
fn finds_none<R: Wait>(
    rt: &R,
    alloc: Global,
    lock: &ActionLock<Counter>,
    pass: &mut Pass<Counter>,
) -> bool
    requires { IsPassOf lock.now pass.old }
    ensures { IsPassOf lock.now pass.new × HasKept (view_of pass.old) (view_of pass.new) }
{
    match pass.read(rt, alloc, lock) {
        Ok(reading) => {
            let none = *reading.share().count < 1;
            reading.leave();
            none
        }
        Err(_) => false,
    }
}

/// Reads and leaves, over and over, until it is told to end.
fn read_until<R: Wait>(
    rt: &R,
    alloc: Global,
    lock: &ActionLock<Counter>,
    pass: &mut Pass<Counter>,
    end: &AtomicBool,
)
    requires { IsPassOf lock.now pass.old }
    ensures { IsPassOf lock.now pass.new × HasKept (view_of pass.old) (view_of pass.new) }
{
    for _ in rt.forever() {
        if end.load(Ordering::SeqCst) {
            return;
        }
        let _none = finds_none(rt, alloc, lock, pass);
    }
    unreachable!()
}

/// Writes so many times, each under an intent of its own.
fn write_turns<R: Wait>(rt: &R, lock: &ActionLock<Counter>, pass: &mut Pass<Counter>, turns: u64)
    requires pass { IsPassOf lock.now pass.old }
    requires leads { (view_of pass.old).number ≡ Some 0 }
    ensures { IsPassOf lock.now pass.new × HasKept (view_of pass.old) (view_of pass.new) }
{
    for _ in 0..turns {
        write_once(rt, lock, pass);
    }
}

/// One write of number 0.
fn write_once<R: Wait>(rt: &R, lock: &ActionLock<Counter>, pass: &mut Pass<Counter>)
    requires pass { IsPassOf lock.now pass.old }
    requires leads { (view_of pass.old).number ≡ Some 0 }
    ensures { IsPassOf lock.now pass.new × HasKept (view_of pass.old) (view_of pass.new) }
{
    pass.intent(rt, lock);
    pass.announce(lock);
    pass.write(rt, lock);
    if pass.home_mut(lock).step() {
        pass.finish(lock);
    } else {
        pass.abandon(lock);
    }
    pass.release(lock);
}

/// What one thread does. How many turns it took, of those that count. Number 0 alone writes.
fn turn<R: Wait>(
    rt: &R,
    alloc: Global,
    lock: &ActionLock<Counter>,
    pass: &mut Pass<Counter>,
    job: Job,
    turns: u64,
    end: &AtomicBool,
) -> u64
    requires { IsPassOf lock.now pass.old }
    ensures { IsPassOf lock.now pass.new × HasKept (view_of pass.old) (view_of pass.new) }
{
    match job {
        Job::Reads => read_turns(rt, alloc, lock, pass, turns),
        Job::Writes if pass.number() == 0 => {
            write_turns(rt, lock, pass, turns);
            end.store(true, Ordering::SeqCst);
            turns
        }
        Job::ReadsOn => {
            read_until(rt, alloc, lock, pass, end);
            0
        }
        _ => 0,
    }
}

/// A pass, its job, and how many turns it took, of those that count.
pub struct Lane {
    pub pass: Pass<Counter>,
    pub job: Job,
    pub done: u64,
}

/// Four threads at once, each with its pass and its job.
pub fn take<R: Threads + Wait + Sync>(
    rt: &R,
    alloc: Global,
    lock: &ActionLock<Counter>,
    lanes: &mut [Lane; 4],
    turns: u64,
)
    requires lanes { All (λ lane. IsPassOf lock.now lane.pass) lanes.old }
    ensures run { (k : ℕ) (d : Lane) → k < 4
        → IsPassOf lock.now (slice_index_or lanes.new k d).pass
        × HasKept (view_of (slice_index_or lanes.old k d).pass) (view_of (slice_index_or lanes.new k d).pass) }
{
    let end = AtomicBool::new(false);
    for_each_mut(
        rt,
        lanes,
        4,
        &|_: usize, lane: &mut Lane| -> ()
            requires { IsPassOf lock.now lane.now.pass }
            ensures { IsPassOf lock.entry.now lane.exit.now.pass
                × HasKept (view_of lane.entry.now.pass) (view_of lane.exit.now.pass) }
        { lane.done = turn(rt, alloc, lock, &mut lane.pass, lane.job, turns, &end) },
    );
}
