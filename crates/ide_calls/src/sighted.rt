//! The sightings for which a soft question was cancelled.
ghost use Rattle.std.specs.Prelude.{◌≡◌};
ghost use Rattle.action_lock.specs.Counts.{counted_by};

use std::marker::Model;

/// The sightings for which a soft question was cancelled. `soft_ask` alone makes one.
#[derive(Drop)]
pub struct Sighted {
    seat: u32,
    attempts: u32,
    before: u64,
    after: u64,
}

impl Model for Sighted {
    ghost use Rattle.std.specs.Prelude.{◌≡◌};
    ghost use Rattle.action_lock.specs.Counts.{counted_by};
    ghost use Rattle.ide_calls.specs.Sighting.{Sighting};

    ghost Value = { Sighting };

    ghost view = { λ s. record { seat = s.seat; attempts = s.attempts; before = s.before; after = s.after } };

    ghost invariant = { λ s. s.after ≡ counted_by s.attempts s.before };
}

impl Sighted {
    pub(crate) fn new(seat: u32, attempts: u32, before: u64, after: u64) -> Sighted
        requires { after ≡ counted_by attempts before }
        ensures { result
            ≡ record { seat = seat; attempts = attempts; before = before; after = after } }
    {
        Sighted {
            seat,
            attempts,
            before,
            after,
        }
    }

    /// The number of the pass that asked.
    pub fn seat(&self) -> u32
        ensures { result ≡ self.now.seat }
    {
        self.seat
    }

    /// How many attempts were allowed.
    pub fn attempts(&self) -> u32
        ensures { result ≡ self.now.attempts }
    {
        self.attempts
    }

    /// How often the pass had found the pending mark before the call, up to 2^64 - 1.
    pub fn before(&self) -> u64
        ensures { result ≡ self.now.before }
    {
        self.before
    }

    /// How often it had found it at the end of the call: once more for each attempt.
    pub fn after(&self) -> u64
        ensures value { result ≡ self.now.after }
        ensures risen { self.now.after ≡ counted_by self.now.attempts self.now.before }
    {
        self.after
    }
}
