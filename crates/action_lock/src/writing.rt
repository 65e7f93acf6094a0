//! The intent and the write, as states of a pass: out, it may come to intend; intending, to write; and back.
ghost use Rattle.std.specs.Prelude.{◌≡◌, ◌∷◌, ◌++◌, [], OnOk, OnErr};
ghost use Rattle.std.specs.Borrow.{sem};
ghost use Rattle.action_lock.specs.declared.view.Phase.TheVariants as phase;
ghost use Rattle.action_lock.specs.Advances.{Advances};
ghost use Rattle.action_lock.specs.Steps.{announced, finished, held_up, released, with_intent, with_phase};
ghost use Rattle.action_lock.specs.Passes.{view_of, IsSamePass, IsPassOf, Intends, Announces, InHand, Writes, HandStands, HasAdded};
ghost use Rattle.action_lock.specs.Reads.{HasClaimed};
ghost use Rattle.action_lock.specs.Writings.{lends_home, HasIntended};

use crate::home::Home;
use crate::lock::ActionLock;
use crate::pass::Pass;
use crate::refusal::IntentRefusal;
use crate::slot::Slot;
use std::sync::Wait;

impl<H: Home> Pass<H> {
    /// One attempt to get the intent, which one pass has at a time. It does not wait.
    pub fn try_intent(&mut self, lock: &ActionLock<H>) -> Result<(), IntentRefusal>
        requires { IsPassOf lock.now self.old }
        ensures same { IsSamePass self.old self.new }
        ensures ok { OnOk result
            (Intends lock.now self.new × (view_of self.new ≡ with_intent (view_of self.old))) }
        ensures held { OnErr result
            (IsPassOf lock.now self.new × (view_of self.new ≡ held_up (view_of self.old))) }
        ensures advances { Advances (view_of self.old) (view_of self.new) }
    {
        if lock.take(self) {
            Ok(())
        } else {
            Err(IntentRefusal::Held)
        }
    }

    /// Gets the intent as soon as no other pass has it. May block.
    pub fn intent<R: Wait>(&mut self, rt: &R, lock: &ActionLock<H>)
        requires { IsPassOf lock.now self.old }
        ensures same { IsSamePass self.old self.new }
        ensures intends { Intends lock.now self.new }
        ensures view { HasIntended (view_of self.old) (view_of self.new) }
        ensures advances { Advances (view_of self.old) (view_of self.new) }
    {
        let mut turns = 0;
        for _ in rt.forever() {
            match self.try_intent(lock) {
                Ok(()) => return,
                Err(IntentRefusal::Held) => turns = lock.wait_for_intent(rt, turns),
            }
        }
        unreachable!()
    }

    /// Says that it is to write: from now on no reader enters. It does not wait; `write` goes on.
    pub fn announce(&mut self, lock: &ActionLock<H>)
        requires { Intends lock.now self.old }
        ensures same { IsSamePass self.old self.new }
        ensures announces { Announces lock.now self.new }
        ensures view { view_of self.new ≡ announced (view_of self.old) }
        ensures advances { Advances (view_of self.old) (view_of self.new) }
    {
        lock.mark_all(self);
    }

    /// Begins to write, once it is announced, as soon as the readers of each place have left; no reader enters meanwhile. May block.
    pub fn write<R: Wait>(&mut self, rt: &R, lock: &ActionLock<H>)
        requires { Announces lock.now self.old }
        ensures same { IsSamePass self.old self.new }
        ensures writes { Writes lock.now self.new }
        ensures stands { HandStands self.new (view_of self.new).seen }
        ensures claimed { HasClaimed H.number_of (view_of self.old) (view_of self.new) }
        ensures advances { Advances (view_of self.old) (view_of self.new) }
    {
        let home = lock.shut_first(rt, self);
        lock.shut_others(rt, self);
        lock.lay(self, home);
    }

    /// The home value that the pass has in its hand.
    pub fn home_mut<'a>(&'a mut self, lock: &'a ActionLock<H>) -> &'a mut H
        requires { Writes lock.now self.old }
        ensures* writes_back { sem 𝓛
            (lends_home H.row H.Entry.row H.Share.row H.Home self.entry result) }
        ensures value { InHand self.old result.now }
    {
        let last = self.places() - 1;
        match self.seat.slot_mut(&lock.table.shared, last) {
            Slot::Home(home) => home,
            Slot::Share(_) => unreachable!(),
            Slot::Empty => unreachable!(),
        }
    }

    /// Ends the write: the home value stands for one entry more, which has the pass's number. The pass keeps its intent.
    /// No other entry is one for which it so stands, so the caller that knows one learns what was written.
    pub fn finish(&mut self, lock: &ActionLock<H>)
        requires writes { Writes lock.now self.old }
        requires added { HasAdded self.old }
        ensures same { IsSamePass self.old self.new }
        ensures intends { Intends lock.now self.new }
        ensures view { (home : H) (entry : H.Entry) → InHand self.old home
            → H.stands home ((view_of self.old).seen ++ entry ∷ [])
            → view_of self.new ≡ finished entry (view_of self.old) }
        ensures advances { Advances (view_of self.old) (view_of self.new) }
    {
        lock.place(self);
        lock.open_all(self);
    }

    /// Ends the write with nothing written: the home value stands for what was seen. The pass keeps its intent.
    pub fn abandon(&mut self, lock: &ActionLock<H>)
        requires writes { Writes lock.now self.old }
        requires kept { HandStands self.old (view_of self.old).seen }
        ensures same { IsSamePass self.old self.new }
        ensures intends { Intends lock.now self.new }
        ensures view { view_of self.new ≡ with_phase phase.Out (view_of self.old) }
        ensures advances { Advances (view_of self.old) (view_of self.new) }
    {
        lock.open_all(self);
    }

    /// Gives the intent back.
    pub fn release(&mut self, lock: &ActionLock<H>)
        requires { Intends lock.now self.old }
        ensures same { IsSamePass self.old self.new }
        ensures rests { IsPassOf lock.now self.new }
        ensures view { view_of self.new ≡ released (view_of self.old) }
        ensures advances { Advances (view_of self.old) (view_of self.new) }
    {
        lock.let_intent_go(self);
    }
}
