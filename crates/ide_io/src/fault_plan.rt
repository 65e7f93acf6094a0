//! Which calls on an object are to fail.

ghost use Rattle.std.specs.Prelude.{◌≡◌};
ghost use Rattle.ide_io.specs.Plan.{Plan, is_next_listed, plan_after};

use crate::fault_count::FaultCount;
use std::marker::Model;

/// A list of the calls that are to fail, with the count of calls and of faults.
///
/// A call costs a look through the list.
#[derive(Drop)]
pub struct FaultPlan {
    failing: Vec<u64>,
    calls: u64,
    faults: FaultCount,
}

impl Model for FaultPlan {
    ghost Value = { Plan };

    ghost view = { λ plan. record { failing = plan.failing.items; calls = plan.calls; faults = plan.faults } };
}

impl FaultPlan {
    /// The plan in which these calls fail. The first call is number 1.
    pub fn new(failing: Vec<u64>) -> FaultPlan
        ensures { result ≡ record { failing = failing.items; calls = 0; faults = 0 } }
    {
        FaultPlan {
            failing,
            calls: 0,
            faults: FaultCount::new(),
        }
    }

    /// Counts one more call, and says whether it is to fail.
    pub fn count_call(&mut self) -> bool
        ensures answer { result ≡ is_next_listed self.old }
        ensures counts { self.new ≡ plan_after self.old }
    {
        self.calls = self.calls.saturating_add(1);
        let is_listed = self.failing.contains(&self.calls);
        if is_listed {
            let _ = self.faults.raise();
        }
        is_listed
    }

    /// How many calls failed.
    pub fn faults(&self) -> u64
        ensures { result ≡ self.now.faults }
    {
        self.faults.get()
    }
}
