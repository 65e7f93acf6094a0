//! The token by which one thread uses a lock.
ghost use Rattle.std.specs.Prelude.{◌≡◌, ◌<◌, ◌≤◌, ◌%◌, Some, None, length};
ghost use Rattle.std.proofs.Props.{props};

use crate::home::Home;
use crate::slot::Slot;
use crate::view::View;
use atomic_table::Seat;

/// What one thread knows of a lock, and its right to step on it. It has to be spent: met into another pass, or given to `close`.
pub struct Pass<H: Home> {
    pub(crate) seat: Seat<Slot<H, H::Share>, View<H::Entry>>,
    pub(crate) number: u32,
    // How many places the lock has.
    pub(crate) places: u32,
    // Its own place, which a read asks for at each of its steps.
    pub(crate) place: u32,
    // How many numbers it has given, if it is number 0.
    pub(crate) drawn: u32,
    // How many passes were met into it.
    pub(crate) met: u32,
    pub(crate) sights: u64,
    // The share of the read that goes on, unless its work has it.
    pub(crate) share: Option<H::Share>,
    ghost numbered: { seat.me.0.number ≡ Some number } by { Prim.hlevel props },
    ghost counts: { number ≡ 0 → seat.me.0.drawn ≡ drawn },
    ghost meets: { length seat.me.0.ended ≡ met },
    ghost few: { drawn ≤ 65536 },
    ghost sees: { seat.me.0.sights ≡ sights },
    ghost spread: { seat.me.0.places ≡ places },
    ghost placed: { place ≡ number % places },
    ghost some_place: { 0 < places },
    ghost few_places: { places ≤ 32 },
}

impl<H: Home> Pass<H> {
    ghost use Rattle.action_lock.specs.Passes.{view_of, IsSamePass};
    ghost use Rattle.action_lock.specs.Words.{own_place};

    /// Its number: 0 for the first pass of a lock, then in the order in which passes were split off.
    pub fn number(&self) -> u32
        ensures { (view_of self.now).number ≡ Some result }
    {
        self.number
    }

    /// How often it has found the pending mark, up to 2^64 - 1.
    pub fn sights(&self) -> u64
        ensures { result ≡ (view_of self.now).sights }
    {
        self.sights
    }

    /// Its place: passes whose numbers are as far apart as there are places share one.
    pub(crate) fn place(&self) -> usize
        ensures own { result ≡ own_place (view_of self.now).places (view_of self.now).number }
        ensures within { result < 32 }
    {
        self.place as usize
    }

    /// How many places its lock has.
    pub(crate) fn places(&self) -> usize
        ensures is { result ≡ (view_of self.now).places }
        ensures some_place { 0 < result }
        ensures few { result ≤ 32 }
    {
        self.places as usize
    }

    /// Keeps the share of a read.
    pub(crate) fn keep(&mut self, share: H::Share)
        requires { self.old.share ≡ None }
        ensures { (self.new.share ≡ Some share) × (self.new.seat ≡ self.old.seat) }
    {
        let None = self.share.replace(share) else {
            unreachable!()
        };
    }

    /// Gives the share of a read out.
    pub(crate) fn let_go(&mut self) -> H::Share
        requires { (share : H.Share) × (self.old.share ≡ Some share) }
        ensures { (self.old.share ≡ Some result) × (self.new.share ≡ None)
            × (self.new.seat ≡ self.old.seat) }
    {
        self.share.take().unwrap()
    }

    /// Lets the share of a read go, if it has one.
    pub(crate) fn clear(&mut self)
        ensures { (self.new.share ≡ None) × (self.new.seat ≡ self.old.seat) }
    {
        drop(self.share.take());
    }
}
