//! How a writer goes through all places: it marks them, shuts them, and opens them again.
ghost use Rattle.std.specs.Prelude.{◌≡◌, ◌+◌, ◌<◌, List, ◌∷◌, []};
ghost use Rattle.action_lock.specs.declared.slot.Slot.TheVariants.{Home};
ghost use Rattle.action_lock.specs.declared.view.Phase.TheVariants.{Out, Marking, Shutting, Opening};
ghost use Rattle.action_lock.specs.Slots.{HasNoHome, kept_of, shut_hand};
ghost use Rattle.action_lock.specs.Steps.{Learns, announced, shutting, opened, with_phase};
ghost use Rattle.action_lock.specs.Views.{Writing};
ghost use Rattle.action_lock.specs.Passes.{view_of, IsSamePass, Intends, Announces, IsWriting, InHand, Writes, HandStands};

use crate::home::Home;
use crate::lock::ActionLock;
use crate::pass::Pass;
use crate::slot::Slot;
use std::alloc::AllocError;
use std::sync::Wait;

impl<H: Home> ActionLock<H> {
    /// Marks all places, from the first to the last: from then on no reader enters.
    pub(crate) fn mark_all(&self, pass: &mut Pass<H>)
        requires { Intends self.now pass.old }
        ensures same { IsSamePass pass.old pass.new }
        ensures marks { Announces self.now pass.new }
        ensures view { view_of pass.new ≡ announced (view_of pass.old) }
    {
        for place in 0..pass.places() {
            self.mark(pass, place);
        }
    }

    /// Shuts the first place as soon as its readers have left, and takes the home value out. May block.
    pub(crate) fn shut_first<R: Wait>(&self, rt: &R, pass: &mut Pass<H>) -> H
        requires { IsWriting self.now pass.old (Marking (view_of pass.old).places) [] }
        ensures same { IsSamePass pass.old pass.new }
        ensures shuts { IsWriting self.now pass.new (Shutting 1)
            (shut_hand (view_of pass.new).places 1) }
        ensures learns { Learns H.number_of (view_of pass.old) (view_of pass.new).seen }
        ensures view { view_of pass.new ≡ shutting (view_of pass.new).seen (view_of pass.old) }
        ensures stands { H.stands result (view_of pass.new).seen }
    {
        let mut turns = 0;
        for _ in rt.forever() {
            if self.claim(pass) {
                return self.empty_first(pass);
            }
            turns = self.wait_for_readers(rt, 0, turns);
        }
        unreachable!()
    }

    /// Empties the slots that come with the first place, and gives the home value.
    fn empty_first(&self, pass: &mut Pass<H>) -> H
        requires { (home : H) × (kept : Slot H H.Share) × HasNoHome kept
            × IsWriting self.now pass.old (Shutting 1)
            (((view_of pass.old).places, Home home) ∷ (0, kept) ∷ []) }
        ensures same { IsSamePass pass.old pass.new }
        ensures shuts { IsWriting self.now pass.new (Shutting 1)
            (shut_hand (view_of pass.new).places 1) }
        ensures view { view_of pass.new ≡ view_of pass.old }
        ensures home { (kept : Slot H H.Share)
            × (pass.old.seat.me.1 ≡ ((view_of pass.old).places, Home result) ∷ (0, kept) ∷ []) }
    {
        let shared = &self.table.shared;
        let behind = pass.places();
        let home = shared
            .exchange(&mut pass.seat, behind, Slot::Empty)
            .into_home();
        pass.seat.turn();
        shared.exchange(&mut pass.seat, 0, Slot::Empty).clear();
        home
    }

    /// Shuts the other places, each as soon as its readers have left. May block.
    pub(crate) fn shut_others<R: Wait>(&self, rt: &R, pass: &mut Pass<H>)
        requires { IsWriting self.now pass.old (Shutting 1)
            (shut_hand (view_of pass.old).places 1) }
        ensures same { IsSamePass pass.old pass.new }
        ensures writes { IsWriting self.now pass.new (Writing (view_of pass.new).places)
            (shut_hand (view_of pass.new).places (view_of pass.new).places) }
        ensures view { with_phase Out (view_of pass.new) ≡ with_phase Out (view_of pass.old) }
    {
        for place in 1..pass.places() {
            self.shut_at(rt, pass, place);
        }
    }

    /// Shuts a place behind the first as soon as its readers have left, and lets go what it kept. May block.
    fn shut_at<R: Wait>(&self, rt: &R, pass: &mut Pass<H>, place: usize)
        requires within { (0 < place) × (place < (view_of pass.old).places) }
        requires shuts { IsWriting self.now pass.old (Shutting place)
            (shut_hand (view_of pass.old).places place) }
        ensures same { IsSamePass pass.old pass.new }
        ensures shuts { IsWriting self.now pass.new (Shutting (place + 1))
            (shut_hand (view_of pass.new).places (place + 1)) }
        ensures view { with_phase Out (view_of pass.new) ≡ with_phase Out (view_of pass.old) }
    {
        let mut turns = 0;
        for _ in rt.forever() {
            if self.shut(pass, place) {
                let shared = &self.table.shared;
                shared.exchange(&mut pass.seat, place, Slot::Empty).clear();
                return;
            }
            turns = self.wait_for_readers(rt, place, turns);
        }
        unreachable!()
    }

    /// Lays the home value into the slot that was emptied last.
    pub(crate) fn lay(&self, pass: &mut Pass<H>, home: H)
        requires { IsWriting self.now pass.old (Writing (view_of pass.old).places)
            (shut_hand (view_of pass.old).places (view_of pass.old).places) }
        ensures same { IsSamePass pass.old pass.new }
        ensures writes { Writes self.now pass.new }
        ensures hand { InHand pass.new home }
        ensures view { view_of pass.new ≡ view_of pass.old }
    {
        let shared = &self.table.shared;
        let last = pass.places() - 1;
        shared
            .exchange(&mut pass.seat, last, Slot::Home(home))
            .clear();
    }

    /// Takes the home value out again.
    fn lift(&self, pass: &mut Pass<H>) -> H
        requires { Writes self.now pass.old }
        ensures same { IsSamePass pass.old pass.new }
        ensures shuts { IsWriting self.now pass.new (Writing (view_of pass.new).places)
            (shut_hand (view_of pass.new).places (view_of pass.new).places) }
        ensures hand { InHand pass.old result }
        ensures view { view_of pass.new ≡ view_of pass.old }
    {
        let shared = &self.table.shared;
        let last = pass.places() - 1;
        shared
            .exchange(&mut pass.seat, last, Slot::Empty)
            .into_home()
    }

    /// Opens all places, from the last to the first, each with a share of the home value, which is given back.
    pub(crate) fn open_all(&self, pass: &mut Pass<H>)
        requires writes { Writes self.now pass.old }
        requires stands { HandStands pass.old (view_of pass.old).seen }
        ensures same { IsSamePass pass.old pass.new }
        ensures intends { Intends self.now pass.new }
        ensures view { view_of pass.new ≡ with_phase Out (view_of pass.old) }
    {
        let home = self.lift(pass);
        let mut place = pass.places() - 1;
        while place > 0 {
            self.open_at(pass, place, &home);
            place -= 1;
        }
        self.open_first(pass, home);
    }

    /// Opens a place behind the first.
    fn open_at(&self, pass: &mut Pass<H>, place: usize, home: &H)
        requires within { (0 < place) × (place < (view_of pass.old).places) }
        requires stands { H.stands home.now (view_of pass.old).seen }
        requires shuts { IsWriting self.now pass.old (opened (view_of pass.old).places (place + 1))
            (shut_hand (view_of pass.old).places (place + 1)) }
        ensures same { IsSamePass pass.old pass.new }
        ensures opens { IsWriting self.now pass.new (opened (view_of pass.new).places place)
            (shut_hand (view_of pass.new).places place) }
        ensures view { with_phase Out (view_of pass.new) ≡ with_phase Out (view_of pass.old) }
    {
        let shared = &self.table.shared;
        let made = home.share(self.alloc);
        let kept = kept_of(made);
        shared.exchange(&mut pass.seat, place, kept).clear();
        self.open(pass, place);
    }

    /// Opens the first place, and gives the home value back.
    fn open_first(&self, pass: &mut Pass<H>, home: H)
        requires stands { H.stands home (view_of pass.old).seen }
        requires shuts { IsWriting self.now pass.old (opened (view_of pass.old).places 1)
            (shut_hand (view_of pass.old).places 1) }
        ensures same { IsSamePass pass.old pass.new }
        ensures intends { Intends self.now pass.new }
        ensures view { view_of pass.new ≡ with_phase Out (view_of pass.old) }
    {
        let shared = &self.table.shared;
        let behind = pass.places();
        let made = home.share(self.alloc);
        let kept = kept_of(made);
        shared.exchange(&mut pass.seat, 0, kept).clear();
        pass.seat.turn();
        shared
            .exchange(&mut pass.seat, behind, Slot::Home(home))
            .clear();
        self.end(pass);
    }
}

/// What a place is to keep: the share that was made for it, or nothing where there was no memory for one.
fn kept_of<H, S: Drop>(made: Result<S, AllocError>) -> Slot<H, S>
    ensures { result ≡ kept_of made }
{
    match made {
        Ok(share) => Slot::Share(share),
        Err(_) => Slot::Empty,
    }
}
