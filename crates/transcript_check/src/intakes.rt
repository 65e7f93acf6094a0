//! The intakes that workers have made.
ghost use Rattle.std.specs.Prelude.{◌≡◌, ◌||◌, not, ℕ, [], IfOk, OnOk};
ghost use Rattle.transcript_check.specs.Intakes.{is_taking, is_among};

use std::alloc::{AllocError, Global};
use std::collections::BTreeSet;
use std::marker::Model;

/// Which worker has taken which file in, and at which stamp: seat, file and stamp of each intake.
#[derive(Drop)]
pub(crate) struct Intakes {
    intakes: BTreeSet<(u32, u32, u64)>,
}

impl Model for Intakes {
    ghost use Rattle.std.specs.Prelude.{List};
    ghost use Rattle.transcript_check.specs.Intakes.{Taking};

    ghost Value = { List Taking };

    ghost view = { λ t. t.intakes.keys };
}

impl Intakes {
    /// No intake.
    pub(crate) fn new(alloc: Global) -> Intakes
        ensures { result ≡ [] }
    {
        Intakes {
            intakes: BTreeSet::new(alloc),
        }
    }

    /// Keeps the intake of a file at a stamp by the worker with a seat, and tells whether it is new. Logarithmic in the
    /// number of intakes.
    pub(crate) fn add(&mut self, seat: u32, file: u32, stamp: u64) -> Result<bool, AllocError>
        ensures fresh { IfOk result (λ fresh. fresh ≡ not (is_among seat file stamp self.old)) }
        ensures among { OnOk result
            ((s : ℕ) (f : ℕ) (t : ℕ)
            → is_among s f t self.new
            ≡ (is_taking s f t (seat, file, stamp) || is_among s f t self.old)) }
    {
        Ok(self.intakes.insert((seat, file, stamp))?)
    }
}
