//! The same turns on std's `RwLock`, with an `Arc` as what a reader keeps.
ghost use Rattle.std.specs.Prelude.{◌≤◌};

use crate::mode::Job;
use std::sync::atomic::{AtomicBool, Ordering};
use std::sync::{Arc, RwLock, Wait};
use std::thread::{Threads, for_each_mut};

/// Whether fewer writes were made, by a share that is kept for a moment.
fn finds_fewer<R: Wait>(rt: &R, lock: &RwLock<Arc<u64>>, below: u64) -> bool {
    let share = Arc::try_clone(&*lock.read(rt));
    match share {
        Ok(share) => *share < below,
        Err(_) => false,
    }
}

/// Reads so many times. How often nothing was found written.
fn read_turns<R: Wait>(rt: &R, lock: &RwLock<Arc<u64>>, turns: u64) -> u64
    ensures { result ≤ turns }
{
    let mut done = 0;
    for turn in 0..turns {
        if finds_fewer(rt, lock, 1) {
            done += 1;
        }
    }
    done
}

/// Reads over and over until it is told to end.
fn read_until<R: Wait>(rt: &R, lock: &RwLock<Arc<u64>>, end: &AtomicBool) {
    for _ in rt.forever() {
        if end.load(Ordering::SeqCst) {
            return;
        }
        let _fewer = finds_fewer(rt, lock, 1);
    }
    unreachable!()
}

/// Writes so many times, in place where no share is out, and else to a copy.
fn write_turns<R: Wait>(rt: &R, lock: &RwLock<Arc<u64>>, turns: u64) {
    for _ in 0..turns {
        let mut kept = lock.write(rt);
        if let Ok(count) = Arc::make_mut(&mut *kept) {
            *count = count.wrapping_add(1);
        }
    }
}

/// What one thread does. How many turns it took, of those that count.
fn turn<R: Wait>(rt: &R, lock: &RwLock<Arc<u64>>, job: Job, turns: u64, end: &AtomicBool) -> u64 {
    match job {
        Job::Rests => 0,
        Job::Reads => read_turns(rt, lock, turns),
        Job::Writes => {
            write_turns(rt, lock, turns);
            end.store(true, Ordering::SeqCst);
            turns
        }
        Job::ReadsOn => {
            read_until(rt, lock, end);
            0
        }
    }
}

/// Four threads at once, each with its job. How many turns each took, of those that count.
pub fn take<R: Threads + Wait + Sync>(
    rt: &R,
    lock: &RwLock<Arc<u64>>,
    jobs: &[Job; 4],
    turns: u64,
) -> [u64; 4] {
    let end = AtomicBool::new(false);
    let mut done = [0; 4];
    for_each_mut(
        rt,
        &mut done,
        4,
        &|index: usize, done: &mut u64| -> () {
            *done = turn(rt, lock, jobs[index % 4], turns, &end)
        },
    );
    done
}
