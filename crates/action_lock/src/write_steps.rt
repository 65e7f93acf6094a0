//! The steps on the intent word, and those on the words of the places by which a pass writes, one call each.
ghost use Rattle.std.specs.Prelude.{◌≡◌, ◌<◌, ◌+◌, ◌∷◌, ◌++◌, []};
ghost use Rattle.action_lock.specs.declared.slot.Slot.{Slot};
ghost use Rattle.action_lock.specs.declared.slot.Slot.TheVariants.{Home};
ghost use Rattle.action_lock.specs.declared.view.Phase.TheVariants.{Out, Marking, Shutting, Opening};
ghost use Rattle.action_lock.specs.Slots.{MayKeep, shut_hand};
ghost use Rattle.action_lock.specs.Views.{Writing};
ghost use Rattle.action_lock.specs.Passes.{view_of, IsSamePass, IsPassOf, Intends, IsWriting, InHand, Writes, HasAdded};
ghost use Rattle.action_lock.specs.Steps.{TakesAt, ClaimsAt, ShutsAt, released, marked, opened, placing, with_phase};

use crate::home::Home;
use crate::lock::ActionLock;
use crate::pass::Pass;
use crate::plays::{Claim, End, Mark, Open, Place, Release, Shut, Take};
use crate::words::{COUNT, INTENT, PENDING, SHUT, word_at};

impl<H: Home> ActionLock<H> {
    /// Asks for the intent, and answers whether it was free.
    pub(crate) fn take(&self, pass: &mut Pass<H>) -> bool
        requires { IsPassOf self.now pass.old }
        ensures same { IsSamePass pass.old pass.new }
        ensures share { pass.new.share ≡ pass.old.share }
        ensures told { TakesAt result pass.old.seat.me pass.new.seat.me }
    {
        let shared = &self.table.shared;
        let found = shared.fetch_or::<Take>(&mut pass.seat, INTENT, 1);
        found == 0
    }

    /// The intent is given back.
    pub(crate) fn let_intent_go(&self, pass: &mut Pass<H>)
        requires { Intends self.now pass.old }
        ensures same { IsSamePass pass.old pass.new }
        ensures share { pass.new.share ≡ pass.old.share }
        ensures view { pass.new.seat.me ≡ (released (view_of pass.old), []) }
    {
        let shared = &self.table.shared;
        shared.store::<Release>(&mut pass.seat, INTENT, 0);
        self.wake_for_intent();
    }

    /// The pending mark of a place is set: from now on no reader enters by it.
    pub(crate) fn mark(&self, pass: &mut Pass<H>, place: usize)
        requires within { place < (view_of pass.old).places }
        requires marks { IsWriting self.now pass.old (marked place) [] }
        ensures same { IsSamePass pass.old pass.new }
        ensures share { pass.new.share ≡ pass.old.share }
        ensures view { pass.new.seat.me
            ≡ (with_phase (Marking (place + 1)) (view_of pass.old), []) }
    {
        let shared = &self.table.shared;
        shared.fetch_add::<Mark>(&mut pass.seat, word_at(place), PENDING);
    }

    /// The first place is shut and the home value is taken, if no reader is in by this place. Whether it was.
    pub(crate) fn claim(&self, pass: &mut Pass<H>) -> bool
        requires { IsWriting self.now pass.old (Marking (view_of pass.old).places) [] }
        ensures same { IsSamePass pass.old pass.new }
        ensures share { pass.new.share ≡ pass.old.share }
        ensures told { ClaimsAt H.number_of H.stands result pass.old.seat.me pass.new.seat.me }
    {
        let shared = &self.table.shared;
        let found = shared.compare_exchange::<Claim<H>>(&mut pass.seat, word_at(0), PENDING, SHUT);
        found == PENDING
    }

    /// A place behind the first is shut, if no reader is in by it. Whether it was.
    pub(crate) fn shut(&self, pass: &mut Pass<H>, place: usize) -> bool
        requires within { (0 < place) × (place < (view_of pass.old).places) }
        requires shuts { IsWriting self.now pass.old (Shutting place)
            (shut_hand (view_of pass.old).places place) }
        ensures same { IsSamePass pass.old pass.new }
        ensures share { pass.new.share ≡ pass.old.share }
        ensures told { ShutsAt result place pass.old.seat.me pass.new.seat.me }
    {
        let shared = &self.table.shared;
        let found = shared.compare_exchange::<Shut>(&mut pass.seat, word_at(place), PENDING, SHUT);
        found == PENDING
    }

    /// The entry for which the home value stands is counted.
    pub(crate) fn place(&self, pass: &mut Pass<H>)
        requires writes { Writes self.now pass.old }
        requires added { HasAdded pass.old }
        ensures same { IsSamePass pass.old pass.new }
        ensures share { pass.new.share ≡ pass.old.share }
        ensures view { (home : H) (entry : H.Entry) → InHand pass.old home
            → H.stands home ((view_of pass.old).seen ++ entry ∷ [])
            → pass.new.seat.me ≡ (placing entry (view_of pass.old), pass.old.seat.me.1) }
    {
        let shared = &self.table.shared;
        shared.fetch_add::<Place<H>>(&mut pass.seat, COUNT, 1);
    }

    /// A place behind the first is opened, with what it is to keep.
    pub(crate) fn open(&self, pass: &mut Pass<H>, place: usize)
        requires within { (0 < place) × (place < (view_of pass.old).places) }
        requires opens { (kept : Slot H H.Share)
            × MayKeep H.share_stands (view_of pass.old).seen kept
            × IsWriting self.now pass.old (opened (view_of pass.old).places (place + 1))
            ((place, kept) ∷ shut_hand (view_of pass.old).places place) }
        ensures same { IsSamePass pass.old pass.new }
        ensures share { pass.new.share ≡ pass.old.share }
        ensures view { pass.new.seat.me
            ≡ (
              with_phase (Opening place) (view_of pass.old),
              shut_hand (view_of pass.old).places place,
            ) }
    {
        let shared = &self.table.shared;
        let word = word_at(place);
        shared.store::<Open>(&mut pass.seat, word, 0);
        self.wake(word);
    }

    /// The first place is opened, with what it is to keep, and the home value is given back.
    pub(crate) fn end(&self, pass: &mut Pass<H>)
        requires { (home : H) × (kept : Slot H H.Share) × H.stands home (view_of pass.old).seen
            × MayKeep H.share_stands (view_of pass.old).seen kept
            × IsWriting self.now pass.old (opened (view_of pass.old).places 1)
            (((view_of pass.old).places, Home home) ∷ (0, kept) ∷ []) }
        ensures same { IsSamePass pass.old pass.new }
        ensures share { pass.new.share ≡ pass.old.share }
        ensures view { pass.new.seat.me ≡ (with_phase Out (view_of pass.old), []) }
    {
        let shared = &self.table.shared;
        let word = word_at(0);
        shared.store::<End>(&mut pass.seat, word, 0);
        self.wake(word);
    }
}
