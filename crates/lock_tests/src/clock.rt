//! The clock of a scene, by which passes in threads of their own wait for one another.
use std::sync::atomic::{AtomicU64, Ordering};
use std::thread;

/// How often a thread looks for what another is to do.
pub const TURNS: u64 = 10_000_000;

/// Waits until the clock has beaten so often. Whether that was before the turns ran out.
pub fn strikes(clock: &AtomicU64, beats: u64) -> bool {
    for _ in 0..TURNS {
        if clock.load(Ordering::SeqCst) >= beats {
            return true;
        }
        thread::yield_now();
    }
    false
}
