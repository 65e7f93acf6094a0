//! The steps on the word of its place by which a pass reads, one call each.
ghost use Rattle.std.specs.Prelude.{◌≡◌, ◌<◌, ◌≤◌, [], None, IsTrue, IsFalse, IfOk, IfErr, OnOk, OnErr};
ghost use Rattle.action_lock.specs.declared.view.Phase.TheVariants.{Out, Backing, Reading};
ghost use Rattle.action_lock.specs.Words.{has_turn, has_pending};
ghost use Rattle.action_lock.specs.Passes.{view_of, IsSamePass, IsAt, IsOut, IsInside, IsEntering, IsLacking, HasFound};
ghost use Rattle.action_lock.specs.Reads.{HasRead, HasFailed, HasWaited, IsRefused};
ghost use Rattle.action_lock.specs.Steps.{EntersAt, checked, with_phase};

use crate::home::Home;
use crate::lock::ActionLock;
use crate::pass::Pass;
use crate::plays::{Back, Enter, Exit, Hold, Look};
use crate::refusal::ReadRefusal;
use crate::slot::Slot;
use crate::words::{READER, TURN, has_pending, has_turn, sights_after, word_at};
use std::alloc::{AllocError, Global};
use std::sync::Wait;

impl<H: Home> ActionLock<H> {
    /// The one step that decides a read.
    pub(crate) fn enter(&self, pass: &mut Pass<H>) -> u64
        requires { IsAt self.now pass.old Out }
        ensures same { IsSamePass pass.old pass.new }
        ensures share { pass.new.share ≡ pass.old.share }
        ensures told { EntersAt H.number_of H.share_stands (has_pending result)
            (has_turn result) pass.old.seat.me result pass.new.seat.me }
    {
        let shared = &self.table.shared;
        let word = word_at(pass.place());
        let found = shared.fetch_or::<Enter<H>>(&mut pass.seat, word, TURN);
        pass.sights = sights_after(pass.sights, found);
        found
    }

    /// The place's share is given back, and the pass is counted as a reader.
    pub(crate) fn hold(&self, pass: &mut Pass<H>)
        requires { IsEntering self.now pass.old }
        ensures same { IsSamePass pass.old pass.new }
        ensures share { pass.new.share ≡ pass.old.share }
        ensures view { pass.new.seat.me ≡ (with_phase Reading (view_of pass.old), []) }
    {
        let shared = &self.table.shared;
        let word = word_at(pass.place());
        shared.fetch_add::<Hold>(&mut pass.seat, word, READER - TURN);
    }

    /// A reader leaves. It has let its share go, so that none is out when a writer comes in.
    pub(crate) fn exit(&self, pass: &mut Pass<H>)
        requires reads { IsAt self.now pass.old Reading }
        requires no_share { pass.old.share ≡ None }
        ensures same { IsSamePass pass.old pass.new }
        ensures share { pass.new.share ≡ pass.old.share }
        ensures view { pass.new.seat.me ≡ (with_phase Out (view_of pass.old), []) }
    {
        let shared = &self.table.shared;
        let word = word_at(pass.place());
        let found = shared.fetch_sub::<Exit>(&mut pass.seat, word, READER);
        self.wake_writer(word, found);
    }

    /// The turn is given back, with nothing done.
    pub(crate) fn back(&self, pass: &mut Pass<H>)
        requires { IsAt self.now pass.old Backing }
        ensures same { IsSamePass pass.old pass.new }
        ensures share { pass.new.share ≡ pass.old.share }
        ensures view { pass.new.seat.me ≡ (with_phase Out (view_of pass.old), []) }
    {
        let shared = &self.table.shared;
        let word = word_at(pass.place());
        let found = shared.fetch_sub::<Exit>(&mut pass.seat, word, TURN);
        self.wake_writer(word, found);
    }

    /// The turn of a place that keeps no share is given back, with the empty slot.
    fn give_up(&self, pass: &mut Pass<H>)
        requires { IsLacking self.now pass.old }
        ensures same { IsSamePass pass.old pass.new }
        ensures share { pass.new.share ≡ pass.old.share }
        ensures view { pass.new.seat.me ≡ (with_phase Out (view_of pass.old), []) }
    {
        let shared = &self.table.shared;
        let word = word_at(pass.place());
        let found = shared.fetch_sub::<Back>(&mut pass.seat, word, TURN);
        self.wake_writer(word, found);
    }

    pub(crate) fn look_at_gate(&self, pass: &mut Pass<H>) -> u64
        requires { IsAt self.now pass.old Reading }
        ensures same { IsSamePass pass.old pass.new }
        ensures share { pass.new.share ≡ pass.old.share }
        ensures view { pass.new.seat.me ≡ (checked result (view_of pass.old), []) }
        ensures kept { (view_of pass.old).sights ≤ (view_of pass.new).sights }
    {
        let shared = &self.table.shared;
        let word = word_at(pass.place());
        let found = shared.load::<Look>(&mut pass.seat, word);
        pass.sights = sights_after(pass.sights, found);
        found
    }

    /// Whether the place keeps no share.
    fn lacks(&self, pass: &mut Pass<H>) -> bool
        requires { HasFound self.now pass.old }
        ensures same { IsSamePass pass.old pass.new }
        ensures share { pass.new.share ≡ pass.old.share }
        ensures view { pass.new.seat.me ≡ pass.old.seat.me }
        ensures lacks { IsTrue result → IsLacking self.now pass.new }
        ensures enters { IsFalse result → IsEntering self.now pass.new }
    {
        let place = pass.place();
        match pass.seat.slot_mut(&self.table.shared, place) {
            Slot::Empty => true,
            Slot::Share(_) => false,
            Slot::Home(_) => unreachable!(),
        }
    }

    /// A second share of what the pass has in hand.
    fn share_in_hand(&self, alloc: Global, pass: &mut Pass<H>) -> Result<H::Share, AllocError>
        requires { IsEntering self.now pass.old }
        ensures same { IsSamePass pass.old pass.new }
        ensures view { view_of pass.new ≡ view_of pass.old }
        ensures entering { IsEntering self.now pass.new }
        ensures kept { pass.new.share ≡ pass.old.share }
        ensures share { IfOk result (λ share. H.share_stands share (view_of pass.old).seen) }
    {
        let place = pass.place();
        match pass.seat.slot_mut(&self.table.shared, place) {
            Slot::Share(share) => H::again(alloc, share),
            Slot::Empty => unreachable!(),
            Slot::Home(_) => unreachable!(),
        }
    }

    /// One attempt to read, by any pass that is out.
    pub(crate) fn try_enter(&self, alloc: Global, pass: &mut Pass<H>) -> Result<(), ReadRefusal>
        requires { IsOut self.now pass.old }
        ensures same { IsSamePass pass.old pass.new }
        ensures ok { OnOk result
            (IsInside self.now pass.new
            × HasRead H.number_of Reading (view_of pass.old) (view_of pass.new)) }
        ensures err { IfErr result
            (λ refusal. IsOut self.now pass.new
            × IsRefused H.number_of refusal (view_of pass.old) (view_of pass.new)) }
    {
        let found = self.enter(pass);
        if has_pending(found) {
            if !has_turn(found) {
                self.back(pass);
            }
            return Err(ReadRefusal::Pending { word: found });
        }
        if has_turn(found) {
            return Err(ReadRefusal::Turn { word: found });
        }
        if self.lacks(pass) {
            self.give_up(pass);
            return Err(ReadRefusal::OutOfMemory);
        }
        let share = self.share_in_hand(alloc, pass);
        self.hold(pass);
        let Ok(share) = share else {
            self.exit(pass);
            return Err(ReadRefusal::OutOfMemory);
        };
        pass.keep(share);
        Ok(())
    }

    /// Tries again until it is let in, or finds no memory.
    pub(crate) fn enter_waiting<R: Wait>(
        &self,
        rt: &R,
        alloc: Global,
        pass: &mut Pass<H>,
    ) -> Result<(), AllocError>
        requires { IsOut self.now pass.old }
        ensures same { IsSamePass pass.old pass.new }
        ensures ok { OnOk result
            (IsInside self.now pass.new
            × HasWaited (HasRead H.number_of Reading) (view_of pass.old) (view_of pass.new)) }
        ensures err { OnErr result
            (IsOut self.now pass.new
            × HasWaited (HasFailed H.number_of) (view_of pass.old) (view_of pass.new)) }
    {
        let mut turns = 0;
        for _ in rt.forever() {
            match self.try_enter(alloc, pass) {
                Ok(()) => return Ok(()),
                Err(ReadRefusal::OutOfMemory) => return Err(AllocError),
                Err(ReadRefusal::Pending { word: _ }) => {
                    turns = self.wait_for_place(rt, pass, turns)
                }
                Err(ReadRefusal::Turn { word: _ }) => self.pause(pass),
            }
        }
        unreachable!()
    }
}
