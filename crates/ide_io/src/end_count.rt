//! Counting how often a source told its end.

ghost use Rattle.std.specs.Prelude.{◌≡◌, ℕ};
ghost use Rattle.ide_io.specs.Ends.{ends_after};

use std::marker::Model;

/// A count of the reads that told the end, which stands still at its last value.
#[derive(Drop)]
pub struct EndCount {
    count: u64,
}

impl Model for EndCount {
    ghost Value = { ℕ };

    ghost view = { λ ends. ends.count };
}

impl EndCount {
    /// No end was told yet.
    pub fn new() -> EndCount
        ensures { result ≡ 0 }
    {
        EndCount { count: 0 }
    }

    /// How often the end was told.
    pub fn get(&self) -> u64
        ensures { result ≡ self.now }
    {
        self.count
    }

    /// Counts a read that gave `count` bytes with room for `room`, where it told the end.
    pub(crate) fn count_read(&mut self, count: usize, room: usize)
        ensures { self.new ≡ ends_after count room self.old }
    {
        if count == 0 && room > 0 {
            self.count = self.count.saturating_add(1);
        }
    }
}
