//! What a piece of work looks at, now and then, to learn whether it is to end early.
ghost use Rattle.std.specs.Prelude.{◌≡◌, ℕ, ◌≤◌, IsTrue, IsFalse};
ghost use Rattle.action_lock.specs.Counts.{counted};

/// Counts its looks and its sightings. A count goes up to 2^64 - 1 and stands there.
pub trait Watch {
    // How often it has looked.
    ghost looks: { Self → ℕ };

    // How often it has seen that the work is to end.
    ghost sightings: { Self → ℕ };

    // It may look.
    ghost can_look: { Self → Type 0 };

    // From the one to the other nothing changed but by looks.
    ghost stays: { Self → Self → Type 0 };

    /// Answers whether it now sees that the work is to end.
    fn look(&mut self) -> bool
        requires { can_look self.old }
        ensures again { can_look self.new }
        ensures stays { stays self.old self.new }
        ensures looks { looks self.new ≡ counted (looks self.old) }
        ensures kept { sightings self.old ≤ sightings self.new }
        ensures seen { IsTrue result → sightings self.new ≡ counted (sightings self.old) }
        ensures unseen { IsFalse result → sightings self.new ≡ sightings self.old };

    ghost stays_itself: { (watch : Self) → stays watch watch };

    ghost stays_on: { (a b c : Self) → stays a b → stays b c → stays a c };
}
