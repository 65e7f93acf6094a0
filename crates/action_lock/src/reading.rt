//! The guard of a read.
ghost use Rattle.std.specs.Prelude.{◌≡◌, ◌≤◌, Some, None, IfOk};
ghost use Rattle.std.specs.Borrow.{sem};
ghost use Rattle.action_lock.specs.declared.view.Phase.TheVariants as phase;
ghost use Rattle.action_lock.specs.Words.{has_pending};
ghost use Rattle.action_lock.specs.Steps.{checked, with_phase};
ghost use Rattle.action_lock.specs.Advances.{Advances};
ghost use Rattle.action_lock.specs.Passes.{view_of, IsSamePass, IsOut};
ghost use Rattle.action_lock.specs.Reads.{HasRead, HasWaited};
ghost use Rattle.action_lock.specs.Readings.{IsReading, GoesOn, IsSameRead, lock_of, pass_of, loan_of, kept_share, rests_if_refused, rests_if_no_memory};

use crate::home::Home;
use crate::lock::ActionLock;
use crate::pass::Pass;
use crate::refusal::ReadRefusal;
use crate::watch::Watch;
use crate::words::has_pending;
use std::alloc::{AllocError, Global};
use std::sync::Wait;

/// A read that goes on. It is not `Drop`: end it by `leave`.
pub struct Reading<'a, H: Home> {
    pub(crate) lock: &'a ActionLock<H>,
    pub(crate) pass: &'a mut Pass<H>,
}

impl<H: Home> Pass<H> {
    /// One attempt to read, with the intent or without. It does not wait.
    pub fn try_read<'a>(
        &'a mut self,
        alloc: Global,
        lock: &'a ActionLock<H>,
    ) -> Result<Reading<'a, H>, ReadRefusal>
        requires { IsOut lock.now self.old }
        ensures* refused { sem 𝓛
            (rests_if_refused H.row H.Entry.row H.Share.row H.Home lock.now self.entry result) }
        ensures same_reference { IfOk result (λ it. loan_of it ≡ self.entry.ghost_name) }
        ensures ok { IfOk result
            (λ it. IsReading it × (lock_of it ≡ lock.now) × IsSamePass self.old (pass_of it)
            × HasRead H.number_of phase.Reading (view_of self.old) (view_of (pass_of it))
            × Advances (view_of self.old) (view_of (pass_of it))) }
    {
        lock.try_enter(alloc, self)?;
        Ok(Reading { lock, pass: self })
    }

    /// Reads as soon as its place lets it in. May block.
    pub fn read<'a, R: Wait>(
        &'a mut self,
        rt: &R,
        alloc: Global,
        lock: &'a ActionLock<H>,
    ) -> Result<Reading<'a, H>, AllocError>
        requires { IsOut lock.now self.old }
        ensures* refused { sem 𝓛
            (rests_if_no_memory H.row H.Entry.row H.Share.row H.Home lock.now self.entry result) }
        ensures same_reference { IfOk result (λ it. loan_of it ≡ self.entry.ghost_name) }
        ensures ok { IfOk result
            (λ it. IsReading it × (lock_of it ≡ lock.now) × IsSamePass self.old (pass_of it)
            × HasWaited (HasRead H.number_of phase.Reading) (view_of self.old)
            (view_of (pass_of it))
            × Advances (view_of self.old) (view_of (pass_of it))) }
    {
        lock.enter_waiting(rt, alloc, self)?;
        Ok(Reading { lock, pass: self })
    }
}

impl<'a, H: Home> Reading<'a, H> {
    /// A share of the home value of the moment in which the read was let in.
    pub fn share(&self) -> &H::Share
        requires { IsReading self.now }
        ensures value { kept_share self.now ≡ Some result.now }
        ensures stands { H.share_stands result.now (view_of (pass_of self.now)).seen }
    {
        self.pass.share.as_ref().unwrap()
    }

    /// Looks whether a write waits.
    pub fn check(&mut self) -> bool
        requires { GoesOn self.old }
        ensures same_reference { loan_of self.new ≡ loan_of self.old }
        ensures same { GoesOn self.new × IsSameRead self.old self.new }
        ensures reads { IsReading self.old → IsReading self.new }
        ensures share { kept_share self.new ≡ kept_share self.old }
        ensures view { view_of (pass_of self.new)
            ≡ checked (view_of (pass_of self.new)).last (view_of (pass_of self.old)) }
        ensures kept { (view_of (pass_of self.old)).sights ≤ (view_of (pass_of self.new)).sights }
        ensures found { result ≡ has_pending (view_of (pass_of self.new)).last }
    {
        let found = self.lock.look_at_gate(self.pass);
        has_pending(found)
    }

    /// Takes the share out, so that a piece of work can be lent the share and this read, its watch, at the same time.
    /// `together` puts it back.
    pub fn apart(&mut self) -> H::Share
        requires { IsReading self.old }
        ensures same_reference { loan_of self.new ≡ loan_of self.old }
        ensures same { GoesOn self.new × IsSameRead self.old self.new }
        ensures view { view_of (pass_of self.new) ≡ view_of (pass_of self.old) }
        ensures share { (kept_share self.old ≡ Some result) × (kept_share self.new ≡ None) }
        ensures stands { H.share_stands result (view_of (pass_of self.new)).seen }
    {
        self.pass.let_go()
    }

    /// Puts back a share that stands for all that the pass has seen.
    pub fn together(&mut self, share: H::Share)
        requires goes_on { GoesOn self.old }
        requires no_share { kept_share self.old ≡ None }
        requires stands { H.share_stands share (view_of (pass_of self.old)).seen }
        ensures same_reference { loan_of self.new ≡ loan_of self.old }
        ensures same { IsReading self.new × IsSameRead self.old self.new }
        ensures view { view_of (pass_of self.new) ≡ view_of (pass_of self.old) }
        ensures share { kept_share self.new ≡ Some share }
    {
        self.pass.keep(share);
    }

    /// Ends the read: lets its share go, and then counts it out.
    pub fn leave(self)
        requires { IsReading self }
        ensures out { IsOut (lock_of self.entry) self.exit.1.0.now }
        ensures same { IsSamePass (pass_of self.entry) self.exit.1.0.now }
        ensures view { view_of self.exit.1.0.now
            ≡ with_phase phase.Out (view_of (pass_of self.entry)) }
        ensures advances { Advances (view_of (pass_of self.entry)) (view_of self.exit.1.0.now) }
    {
        let Reading { lock, pass } = self;
        pass.clear();
        lock.exit(pass);
    }
}

impl<'a, H: Home> Watch for Reading<'a, H> {
    ghost use Rattle.std.specs.Prelude.{min};
    ghost use Rattle.action_lock.specs.Passes.{view_of};
    ghost use Rattle.action_lock.specs.Readings.{GoesOn, StaysReading, pass_of};
    ghost use Rattle.action_lock.specs.Watching.{stays_itself, stays_on};

    // The looks in this read, which have no end, up to 2^64 - 1.
    ghost looks = { λ r. min (view_of (pass_of r)).checks 18446744073709551615 };

    ghost sightings = { λ r. (view_of (pass_of r)).sights };

    ghost can_look = { GoesOn };

    ghost stays = { StaysReading };

    ghost stays_itself = { stays_itself };

    ghost stays_on = { stays_on };

    fn look(&mut self) -> bool {
        self.check()
    }
}
