//! Counting faults.

ghost use Rattle.std.specs.Prelude.{◌≡◌, ◌≤◌, ℕ};
ghost use Rattle.ide_io.specs.Fault.{HasFault, next_count};

use crate::failed::Failed;
use std::marker::Model;

/// A count of faults, which stands still at its last value.
#[derive(Drop)]
pub struct FaultCount {
    count: u64,
}

impl Model for FaultCount {
    ghost Value = { ℕ };

    ghost view = { λ faults. faults.count };
}

impl FaultCount {
    /// No fault yet.
    pub fn new() -> FaultCount
        ensures { result ≡ 0 }
    {
        FaultCount { count: 0 }
    }

    /// How many faults there were.
    pub fn get(&self) -> u64
        ensures { result ≡ self.now }
    {
        self.count
    }

    /// Counts one more fault, and gives the failure to answer.
    pub fn raise(&mut self) -> Failed
        ensures next { self.new ≡ next_count self.old }
        ensures never_falls { self.old ≤ self.new }
        ensures fault { HasFault self.old self.new }
    {
        self.count = self.count.saturating_add(1);
        Failed
    }
}
