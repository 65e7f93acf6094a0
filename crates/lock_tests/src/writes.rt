//! Callers of the intent and of writes, at any home value.
ghost use Rattle.std.specs.Prelude.{◌≡◌, ◌∷◌, ◌++◌, [], List, Some, true, OnOk, OnErr, IsTrue, IsFalse};
ghost use Rattle.action_lock.specs.Passes.{IsPassOf, Intends, view_of};
ghost use Rattle.lock_tests.specs.Writes.{HasMade, HasMadeAtOnce, HasMadeTwo};

use crate::acts::Told;
use crate::board::{Append, Board};
use crate::clock::strikes;
use action_lock::{ActionLock, Home, Pass};
use std::alloc::{AllocError, Global};
use std::sync::Wait;
use std::sync::atomic::Ordering;

/// A change of a home value that adds one entry.
pub trait Adds<H: Home> {
    /// Adds an entry with this number, or leaves the home value as it was.
    fn make(&self, home: &mut H, number: u32) -> Result<(), AllocError>
        ensures ok { OnOk result
            ((entries : List H.Entry) → H.stands home.old entries
            → (entry : H.Entry) × (H.number_of entry ≡ number)
            × H.stands home.new (entries ++ entry ∷ [])) }
        ensures err { OnErr result
            ((entries : List H.Entry) → H.stands home.old entries → H.stands home.new entries) };
}

/// One change, under an intent of its own. Whether it was made.
pub fn change_once<R: Wait, H: Home, C: Adds<H>>(
    rt: &R,
    lock: &ActionLock<H>,
    pass: &mut Pass<H>,
    what: &C,
) -> bool
    requires { IsPassOf lock.now pass.old }
    ensures pass { IsPassOf lock.now pass.new }
    ensures number { (view_of pass.new).number ≡ (view_of pass.old).number }
    ensures made { IsTrue result → HasMade (view_of pass.old) (view_of pass.new) }
    ensures none { IsFalse result → (view_of pass.new).mine ≡ (view_of pass.old).mine }
{
    let number = pass.number();
    pass.intent(rt, lock);
    let made = add(rt, lock, pass, what, number);
    pass.release(lock);
    made
}

/// Reads what is there, plans a change by it, and makes it under the same intent, so that the plan's fact still holds at the write.
pub fn change_planned<R: Wait, H: Home, C: Plans<H>>(
    rt: &R,
    alloc: Global,
    lock: &ActionLock<H>,
    pass: &mut Pass<H>,
    what: &C,
) -> bool
    requires { IsPassOf lock.now pass.old }
    ensures pass { IsPassOf lock.now pass.new }
    ensures made { IsTrue result → HasMade (view_of pass.old) (view_of pass.new) }
{
    let number = pass.number();
    pass.intent(rt, lock);
    let Ok(reading) = pass.read(rt, alloc, lock) else {
        pass.release(lock);
        return false;
    };
    let plan = what.plan(reading.share());
    reading.leave();
    pass.announce(lock);
    pass.write(rt, lock);
    what.carry_out(pass.home_mut(lock), plan, number);
    pass.finish(lock);
    pass.release(lock);
    true
}

/// A change that is planned on a share, and needs the plan to be about the list that the home value stands for.
pub trait Plans<H: Home> {
    /// What is worked out on a share, and carried out on the home value.
    type Plan;

    // The plan is about this list.
    ghost is_about: { Self.Plan → List H.Entry → Type 0 };

    /// Works out the change on a share.
    fn plan(&self, share: &H::Share) -> Self::Plan
        ensures { (entries : List H.Entry) → H.share_stands share.now entries
            → is_about result entries };

    /// Makes the change, which adds one entry of this number.
    fn carry_out(&self, home: &mut H, plan: Self::Plan, number: u32)
        requires { (entries : List H.Entry) × H.stands home.old entries × is_about plan entries }
        ensures { (entries : List H.Entry) → H.stands home.old entries
            → (entry : H.Entry) × (H.number_of entry ≡ number)
            × H.stands home.new (entries ++ entry ∷ []) };
}

/// Two changes under one intent: what is seen at the second is what the first has left. Whether both were made.
pub fn change_twice<R: Wait, H: Home, C: Adds<H>>(
    rt: &R,
    lock: &ActionLock<H>,
    pass: &mut Pass<H>,
    what: &C,
) -> bool
    requires { IsPassOf lock.now pass.old }
    ensures pass { IsPassOf lock.now pass.new }
    ensures number { (view_of pass.new).number ≡ (view_of pass.old).number }
    ensures made { IsTrue result → HasMadeTwo (view_of pass.old) (view_of pass.new) }
{
    let number = pass.number();
    pass.intent(rt, lock);
    let first = add(rt, lock, pass, what, number);
    let second = first && add(rt, lock, pass, what, number);
    pass.release(lock);
    second
}

/// One change by a pass that intends.
fn add<R: Wait, H: Home, C: Adds<H>>(
    rt: &R,
    lock: &ActionLock<H>,
    pass: &mut Pass<H>,
    what: &C,
    number: u32,
) -> bool
    requires intends { Intends lock.now pass.old }
    requires own { (view_of pass.old).number ≡ Some number }
    ensures intends { Intends lock.now pass.new }
    ensures own { (view_of pass.new).number ≡ Some number }
    ensures current { (view_of pass.new).current ≡ true }
    ensures made { IsTrue result → HasMade (view_of pass.old) (view_of pass.new) }
    ensures none { IsFalse result → (view_of pass.new).mine ≡ (view_of pass.old).mine }
    ensures at_once { IsTrue result → (view_of pass.old).current ≡ true
        → HasMadeAtOnce (view_of pass.old) (view_of pass.new) }
{
    pass.announce(lock);
    pass.write(rt, lock);
    match what.make(pass.home_mut(lock), number) {
        Ok(()) => {
            pass.finish(lock);
            true
        }
        Err(_) => {
            pass.abandon(lock);
            false
        }
    }
}

/// One change of a board, if no other pass has the intent. The clock beats under the intent, which waits for so many beats.
pub fn try_change<R: Wait>(
    rt: &R,
    lock: &ActionLock<Board>,
    pass: &mut Pass<Board>,
    what: &Append,
    held_until: u64,
) -> Told
    requires { IsPassOf lock.now pass.old }
    ensures { IsPassOf lock.now pass.new × ((view_of pass.new).number ≡ (view_of pass.old).number) }
{
    let number = pass.number();
    if pass.try_intent(lock).is_err() {
        return Told::Held;
    }
    what.clock.fetch_add(1, Ordering::SeqCst);
    let in_time = strikes(what.clock, held_until);
    let made = add(rt, lock, pass, what, number);
    pass.release(lock);
    Told::Is(made && in_time)
}
