//! Passes inside the lanes of a run, one thread each.
ghost use Rattle.std.specs.Prelude.{◌≡◌, ℕ, ◌<◌, All, slice_index_or};
ghost use Rattle.action_lock.specs.Passes.{IsPassOf, view_of};

use crate::acts::{Act, Told, perform};
use crate::board::Board;
use action_lock::{ActionLock, Pass};
use std::alloc::Global;
use std::sync::Wait;
use std::sync::atomic::AtomicU64;
use std::thread::{Threads, for_each_mut};

/// A pass, and whether its acts were told what they were to be.
pub struct Lane {
    pub pass: Pass<Board>,
    pub right: bool,
}

/// Does acts one after another, up to the first that is told something else than it is to be. Whether there was none.
fn play<R: Wait>(
    rt: &R,
    alloc: Global,
    lock: &ActionLock<Board>,
    pass: &mut Pass<Board>,
    clock: &AtomicU64,
    acts: &[(Act, Told)],
) -> bool
    requires { IsPassOf lock.now pass.old }
    ensures { IsPassOf lock.now pass.new × ((view_of pass.new).number ≡ (view_of pass.old).number) }
{
    for k in 0..acts.len() {
        let (what, wanted) = acts[k];
        if perform(rt, alloc, lock, pass, clock, what) != wanted {
            return false;
        }
    }
    true
}

/// Plays all lanes at once, each with its acts.
pub fn play_all<R: Threads + Wait + Sync>(
    rt: &R,
    alloc: Global,
    lock: &ActionLock<Board>,
    acts: &[&[(Act, Told)]; 4],
    lanes: &mut [Lane; 4],
)
    requires lanes { All (λ lane. IsPassOf lock.now lane.pass) lanes.old }
    ensures run { (k : ℕ) (d : Lane) → k < 4
        → IsPassOf lock.now (slice_index_or lanes.new k d).pass
        × ((view_of (slice_index_or lanes.new k d).pass).number
        ≡ (view_of (slice_index_or lanes.old k d).pass).number) }
{
    let clock = AtomicU64::new(0);
    for_each_mut(
        rt,
        lanes,
        4,
        &|index: usize, lane: &mut Lane| -> ()
            requires { IsPassOf lock.now lane.now.pass }
            ensures { IsPassOf lock.entry.now lane.exit.now.pass
                × ((view_of lane.exit.now.pass).number ≡ (view_of lane.entry.now.pass).number) }
        { lane.right = play(rt, alloc, lock, &mut lane.pass, &clock, acts[index % 4]) },
    );
}
