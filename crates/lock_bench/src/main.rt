//! The program `lock_bench`: turns on the lock, and the same on std's `RwLock`, for `bench/lock.py` to time.
#![tactic(auto)]

mod counter;
mod mode;
mod ours;
mod plain;
mod play;
mod start;

use start::start;
use std::io;

fn main(rt: HostRuntime) -> io::Result<()> {
    start(&rt)
}
