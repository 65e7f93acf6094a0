//! The lock: its words, its slots and the views of its passes.
ghost use Rattle.std.specs.Prelude.{◌≡◌, ◌≢◌, ◌+◌, ◌<◌, ◌↔◌, List, [], ◌∷◌, ◌++◌, length, All, Some, IfOk, IfErr, IsTrue, vec_len, vec_capacity};
ghost use Rattle.action_lock.specs.declared.slot.Slot.TheVariants.{Home};
ghost use Rattle.action_lock.specs.Slots.{HasNoHome, MayKeep};
ghost use Rattle.action_lock.specs.Steps.{KnowsItsLists, joined, splitting, split_off, told};
ghost use Rattle.action_lock.specs.Views.{first_view};
ghost use Rattle.action_lock.specs.Words.{places_for};
ghost use Rattle.list_laws.specs.Prefixes.{IsPrefix};

use crate::home::Home;
use crate::pass::Pass;
use crate::plays::{Cut, Glue, Tell};
use crate::refusal::SplitRefusal;
use crate::rule::GateRule;
use crate::slot::Slot;
use crate::view::View;
use crate::words::{COUNT, MOST_PLACES, WORDS};
use atomic_table::{Refused, Table};
use std::alloc::{AllocError, AllocFailed, Global};
use std::sync::atomic::AtomicU64;

/// How many numbers a lock has.
const NUMBERS: u32 = 65536;

/// A lock with reads that go side by side, one write-intent, and writes that come before new reads. It holds a home value, and is used by passes.
/// Each of its places has a word for its readers, and keeps a share for them.
pub struct ActionLock<H: Home> {
    pub(crate) table: Table<Slot<H, H::Share>, View<H::Entry>, u32, GateRule<H>, Global>,
    pub(crate) alloc: Global,
    /// How many passes sleep on a word, or are about to.
    pub(crate) sleepers: AtomicU64,
    ghost sized: { (table.shared.table_id.words ≡ 544) × (table.shared.table_id.slots ≡ table.shared.key + 1) },
}

impl<H: Home> ActionLock<H> {
    ghost use Rattle.action_lock.specs.Passes.{view_of, IsSamePass, IsPassOf, IsLast};

    /// A lock over a home value that stands for no entry yet, with a share of it at each place, and its first pass. Where there is no memory, the
    /// home value comes back. It has as many places as are asked for, but one at least and 32 at most. Reads at one place take turns at its word,
    /// and a write goes through all places: ask for as many as there will be passes that read at the same time.
    pub fn new(
        alloc: Global,
        home: H,
        places: u32,
    ) -> Result<(ActionLock<H>, Pass<H>), AllocFailed<H>>
        requires { H.stands home [] }
        ensures ok { IfOk result
            (λ made. IsPassOf made.0 made.1 × (view_of made.1 ≡ first_view (places_for places))) }
        ensures err { IfErr result (λ failed. failed.value ≡ home) }
    {
        let places = places_for(places);
        let Ok(mut slots) = shares_of(alloc, &home, places) else {
            return Err(AllocFailed { value: home });
        };
        slots.push_reserved(Slot::Home(home));
        match Table::new(alloc, &[0; WORDS], slots, &places) {
            Ok((table, seat)) => {
                let pass = Pass {
                    seat,
                    number: 0,
                    places,
                    place: 0,
                    drawn: 1,
                    met: 0,
                    sights: 0,
                    share: None,
                };
                let lock = ActionLock {
                    table,
                    alloc,
                    sleepers: AtomicU64::new(0),
                };
                Ok((lock, pass))
            }
            Err(Refused { slots }) => Err(AllocFailed {
                value: home_behind(slots),
            }),
        }
    }

    /// A pass with the next number, which has seen as much. Number 0 alone gives numbers.
    pub fn split(&self, pass: &mut Pass<H>) -> Result<Pass<H>, SplitRefusal>
        requires pass { IsPassOf self.now pass.old }
        requires leads { (view_of pass.old).number ≡ Some 0 }
        ensures pass { IsPassOf self.now pass.new × IsSamePass pass.old pass.new }
        ensures ok { IfOk result
            (λ new. IsPassOf self.now new × ((view_of pass.old).drawn < 65536)
            × (view_of pass.new ≡ splitting (view_of pass.old))
            × (view_of new ≡ split_off (view_of pass.old))) }
        ensures full { IfErr result
            (λ refusal. (refusal ≡ SplitRefusal.Full 65536) × ((view_of pass.old).drawn ≡ 65536)
            × (view_of pass.new ≡ view_of pass.old)) }
    {
        if pass.drawn == NUMBERS {
            return Err(SplitRefusal::Full { drawn: NUMBERS });
        }
        let seat = self.table.shared.split_seat::<Cut>(&mut pass.seat);
        let number = pass.drawn;
        pass.drawn += 1;
        Ok(Pass {
            seat,
            number,
            places: pass.places,
            place: number % pass.places,
            drawn: 0,
            met: 0,
            sights: 0,
            share: None,
        })
    }

    /// The second pass takes in what the first knows, and keeps its entries apart by its number.
    pub fn meet(&self, other: Pass<H>, pass: &mut Pass<H>)
        requires pass { IsPassOf self.now pass.old }
        requires other { IsPassOf self.now other }
        requires follows { (view_of other).number ≢ Some 0 }
        ensures pass { IsPassOf self.now pass.new × IsSamePass pass.old pass.new }
        ensures view { view_of pass.new ≡ told (joined (view_of pass.old) (view_of other)) }
        ensures keeps { IsPrefix (view_of pass.old).seen (view_of pass.new).seen }
        ensures learns { IsPrefix (view_of other).seen (view_of pass.new).seen }
        ensures knows { KnowsItsLists H.number_of (view_of pass.new) }
    {
        let Pass {
            seat,
            number: _,
            places: _,
            place: _,
            drawn: _,
            met,
            sights: _,
            share,
        } = other;
        let None = share else { unreachable!() };
        self.table.shared.join_seat::<Glue>(&mut pass.seat, seat);
        self.table.shared.load::<Tell<H>>(&mut pass.seat, COUNT);
        pass.met += met + 1;
    }

    /// Whether the pass is number 0, and every other number that was given was met into it.
    pub fn is_last(&self, pass: &mut Pass<H>) -> bool
        requires { IsPassOf self.now pass.old }
        ensures pass { IsPassOf self.now pass.new × IsSamePass pass.old pass.new }
        ensures view { view_of pass.new ≡ view_of pass.old }
        ensures last { IsTrue result ↔ IsLast (view_of pass.new) }
        ensures knows { KnowsItsLists H.number_of (view_of pass.new) }
    {
        self.table.shared.load::<Tell<H>>(&mut pass.seat, COUNT);
        pass.number == 0 && pass.drawn == pass.met + 1
    }

    /// Gives the home value back, which stands for all that the pass has seen.
    pub fn close(self, pass: Pass<H>) -> H
        requires pass { IsPassOf self pass }
        requires last { IsLast (view_of pass) }
        ensures stands { H.stands result (view_of pass).seen }
        ensures knows { KnowsItsLists H.number_of (view_of pass) }
    {
        let ActionLock {
            table,
            alloc: _,
            sleepers: _,
        } = self;
        let Pass {
            seat,
            number: _,
            places,
            place: _,
            drawn: _,
            met: _,
            sights: _,
            share,
        } = pass;
        let None = share else { unreachable!() };
        let mut closed = table.close_with(seat);
        let behind = places as usize;
        for place in 0..behind {
            closed.take(place).clear();
        }
        let home = closed.take(behind).into_home();
        closed.free();
        home
    }
}

/// How many places a lock has for which so many are asked.
fn places_for(asked: u32) -> u32
    ensures { result ≡ places_for asked }
{
    asked.min(MOST_PLACES).max(1)
}

/// A share for each place, with room for one value more.
fn shares_of<H: Home>(
    alloc: Global,
    home: &H,
    places: u32,
) -> Result<Vec<Slot<H, H::Share>>, AllocError>
    ensures many { IfOk result (λ slots. length slots.items ≡ places) }
    ensures keeps { IfOk result
        (λ slots. (entries : List H.Entry) → H.stands home.now entries
        → All (MayKeep H.share_stands entries) slots.items) }
    ensures shares { IfOk result (λ slots. All HasNoHome slots.items) }
    ensures room { IfOk result (λ slots. vec_len slots < vec_capacity slots) }
{
    let mut slots = Vec::with_capacity(alloc, places as usize + 1)?;
    for made in 0..places {
        match home.share(alloc) {
            Ok(share) => slots.push_reserved(Slot::Share(share)),
            Err(refused) => {
                discard(slots);
                return Err(refused);
            }
        }
    }
    Ok(slots)
}

/// Lets shares go.
fn discard<H, S: Drop>(mut slots: Vec<Slot<H, S>>)
    requires { All HasNoHome slots.items }
{
    while let Some(slot) = slots.pop() {
        slot.clear();
    }
    slots.destroy_empty();
}

/// The home value, which stands behind shares; these are let go.
fn home_behind<H, S: Drop>(mut slots: Vec<Slot<H, S>>) -> H
    requires { (home : H) × (shares : List (Slot H S)) × All HasNoHome shares
        × (slots.items ≡ shares ++ Home home ∷ []) }
    ensures { (shares : List (Slot H S)) × (slots.items ≡ shares ++ Home result ∷ []) }
{
    let home = slots.pop().unwrap().into_home();
    discard(slots);
    home
}
