//! What a slot of the lock's table holds.
ghost use Rattle.std.specs.Prelude.{◌≡◌};
ghost use Rattle.action_lock.specs.declared.slot.Slot.TheVariants.{Home};
ghost use Rattle.action_lock.specs.Slots.{HasNoHome};

/// A value of a slot: the home value, the share that a place keeps, or nothing.
pub enum Slot<H, S> {
    /// The value under the lock.
    Home(H),
    /// The share that a place keeps.
    Share(S),
    /// Nothing: what stood here is in use, or no share is kept.
    Empty,
}

impl<H, S: Drop> Slot<H, S> {
    /// Lets go what a place kept.
    pub(crate) fn clear(self)
        requires { HasNoHome self }
    {
        match self {
            Slot::Share(share) => drop(share),
            Slot::Empty => {}
            Slot::Home(_home) => unreachable!(),
        }
    }

    /// The home value.
    pub(crate) fn into_home(self) -> H
        requires { (home : H) × (self ≡ Home home) }
        ensures { self ≡ Home result }
    {
        match self {
            Slot::Home(home) => home,
            Slot::Share(_) => unreachable!(),
            Slot::Empty => unreachable!(),
        }
    }
}
