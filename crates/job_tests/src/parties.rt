//! Pushers and takers in threads of their own.
ghost use Rattle.std.specs.Prelude.{◌≡◌, ◌≢◌, ◌<◌, All, Some, length};
ghost use Rattle.job_queue.specs.Passes.{IsQueuePassOf, queue_view};

use job_queue::{Hint, JobQueue, QueuePass};
use std::alloc::Global;
use std::sync::Wait;
use std::sync::atomic::{AtomicU64, Ordering};
use std::thread;
use std::thread::{Threads, for_each_mut};

const TURNS: u64 = 10_000_000;

/// A pass, and what it is to do.
pub struct Party {
    pub pass: QueuePass,
    /// How many hints it is to put. If none, it takes.
    pub puts: u32,
    /// The hints that it took.
    pub took: Vec<Hint>,
    /// Whether it did all before its turns ran out.
    pub done: bool,
}

impl Party {
    /// A party with this pass, which is to put so many hints and has taken none.
    pub fn new(alloc: Global, pass: QueuePass, puts: u32) -> Party
        ensures { result.pass ≡ pass }
    {
        Party {
            pass,
            puts,
            took: Vec::new(alloc),
            done: false,
        }
    }

    /// Meets its pass. What it took, if it did all.
    pub fn end(self, queue: &JobQueue, pass: &mut QueuePass) -> Option<Vec<Hint>>
        requires own { IsQueuePassOf queue.now self.pass }
        requires follows { (queue_view self.pass).number ≢ Some 0 }
        requires pass { IsQueuePassOf queue.now pass.old }
        ensures { IsQueuePassOf queue.now pass.new }
    {
        let Party {
            pass: own,
            puts: _,
            took,
            done,
        } = self;
        queue.meet(own, pass);
        if done { Some(took) } else { None }
    }
}

// Puts so many hints. Whether each found room.
fn put_all<R: Wait>(rt: &R, queue: &JobQueue, pass: &mut QueuePass, hints: u32) -> bool
    requires { IsQueuePassOf queue.now pass.old }
    ensures { IsQueuePassOf queue.now pass.new }
{
    for file in 0..hints {
        if pass.offered() >= 1_048_576 || queue.offer(rt, pass, file).is_err() {
            return false;
        }
    }
    true
}

// Takes until all parties together have taken so many. Whether they had before the turns ran out.
fn take_all<R: Wait>(
    rt: &R,
    queue: &JobQueue,
    pass: &mut QueuePass,
    all: u64,
    taken: &AtomicU64,
    took: &mut Vec<Hint>,
) -> bool
    requires { IsQueuePassOf queue.now pass.old }
    ensures { IsQueuePassOf queue.now pass.new }
{
    for _ in 0..TURNS {
        if taken.load(Ordering::SeqCst) >= all {
            return true;
        }
        if let Some(hint) = queue.take(rt, pass) {
            if took.push(hint).is_err() {
                return false;
            }
            taken.fetch_add(1, Ordering::SeqCst);
        } else {
            thread::yield_now();
        }
    }
    false
}

// Puts or takes.
fn act<R: Wait>(rt: &R, queue: &JobQueue, all: u64, taken: &AtomicU64, party: &mut Party)
    requires { IsQueuePassOf queue.now party.old.pass }
    ensures { IsQueuePassOf queue.now party.new.pass }
{
    party.done = if party.puts > 0 {
        put_all(rt, queue, &mut party.pass, party.puts)
    } else {
        take_all(rt, queue, &mut party.pass, all, taken, &mut party.took)
    };
}

/// All parties at once, until they have taken so many hints together.
pub fn run<R: Threads + Wait + Sync>(rt: &R, queue: &JobQueue, all: u64, parties: &mut [Party])
    requires passes { All (λ party. IsQueuePassOf queue.now party.pass) parties.old }
    requires some { 0 < length parties.old }
    ensures same { length parties.new ≡ length parties.old }
    ensures passes { All (λ party. IsQueuePassOf queue.now party.pass) parties.new }
{
    let threads = parties.len();
    let taken = AtomicU64::new(0);
    for_each_mut(
        rt,
        parties,
        threads,
        &|_index: usize, party: &mut Party| -> ()
            requires { IsQueuePassOf queue.now party.now.pass }
            ensures { IsQueuePassOf queue.entry.now party.exit.now.pass }
        { act(rt, queue, all, &taken, party) },
    );
}

// How often a hint of this pusher with this turn was taken.
fn times(took: &[Hint], pusher: u32, turn: u32) -> usize {
    took.iter()
        .filter(|hint| hint.pusher == pusher && hint.turn == turn)
        .count()
}

/// Whether this pusher's turns, from 1 to so many, came once each.
pub fn came_once(one: &[Hint], two: &[Hint], pusher: u32, hints: u32) -> bool {
    for turn in 1..=hints {
        let first = times(one, pusher, turn);
        let second = times(two, pusher, turn);
        if !((first == 1 && second == 0) || (first == 0 && second == 1)) {
            return false;
        }
    }
    true
}
