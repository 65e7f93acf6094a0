//! Turns on a lock with four passes, which is closed when they are done.
ghost use Rattle.std.specs.Prelude.{◌≡◌};

use crate::counter::Counter;
use crate::mode::{Job, Turn};
use crate::ours::Lane;
use crate::{ours, plain};
use action_lock::{ActionLock, Pass};
use std::alloc::{AllocError, Global};
use std::sync::{Arc, RwLock, Wait};
use std::thread::Threads;

/// Takes so many turns in each thread on the lock, and tells how many were taken by all that count theirs.
pub fn ours<R: Threads + Wait + Sync>(
    rt: &R,
    alloc: Global,
    turn: Turn,
    turns: u64,
) -> Result<u64, AllocError> {
    let Ok((lock, mut one)) = ActionLock::new(alloc, Counter::new(alloc)?, 4) else {
        return Err(AllocError);
    };
    let Ok(two) = lock.split(&mut one) else {
        unreachable!()
    };
    let Ok(three) = lock.split(&mut one) else {
        unreachable!()
    };
    let Ok(four) = lock.split(&mut one) else {
        unreachable!()
    };
    let [a, b, c, d] = turn.jobs();
    let mut lanes = [lane(one, a), lane(two, b), lane(three, c), lane(four, d)];
    ours::take(rt, alloc, &lock, &mut lanes, turns);
    let [one, two, three, four] = lanes;
    let (mut one, a) = taken(one);
    let (two, b) = taken(two);
    let (three, c) = taken(three);
    let (four, d) = taken(four);
    lock.meet(two, &mut one);
    lock.meet(three, &mut one);
    lock.meet(four, &mut one);
    lock.close(one);
    Ok(sum(&[a, b, c, d]))
}

/// A lane that has taken no turn.
fn lane(pass: Pass<Counter>, job: Job) -> Lane
    ensures { result.pass ≡ pass }
{
    Lane { pass, job, done: 0 }
}

/// The pass of a lane, and how many turns it took.
fn taken(lane: Lane) -> (Pass<Counter>, u64)
    ensures { result.0 ≡ lane.pass }
{
    let Lane { pass, job: _, done } = lane;
    (pass, done)
}

/// The same on std's `RwLock`.
pub fn other<R: Threads + Wait + Sync>(
    rt: &R,
    alloc: Global,
    turn: Turn,
    turns: u64,
) -> Result<u64, AllocError> {
    let lock = RwLock::new(Arc::new(alloc, 0)?);
    Ok(sum(&plain::take(rt, &lock, &turn.jobs(), turns)))
}

/// How many all four took.
fn sum(done: &[u64; 4]) -> u64 {
    let [a, b, c, d] = *done;
    a.wrapping_add(b).wrapping_add(c).wrapping_add(d)
}
