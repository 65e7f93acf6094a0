//! The rule's laws: functions that do nothing, whose contracts are the laws.
ghost use Rattle.std.specs.Prelude.{◌≡◌, ◌≢◌, ◌≤◌, ◌⊎◌, ℕ, true, length};
ghost use mathlib.Core.Option.{some};
ghost use lib.ListN.{get_elem?};
ghost use Rattle.atomic_table.specs.Table.{Me, State, Step};
ghost use Rattle.action_lock.specs.declared.slot.Slot.{Slot};
ghost use Rattle.action_lock.specs.declared.view.Phase.TheVariants.{Reading};
ghost use Rattle.action_lock.specs.declared.view.View.{View};
ghost use Rattle.action_lock.specs.Counts.{counted};
ghost use Rattle.action_lock.specs.Rule.{IsKept};
ghost use Rattle.action_lock.specs.Steps.{IsOnOwn, IsStep};
ghost use Rattle.action_lock.specs.Views.{Writing};
ghost use Rattle.action_lock.specs.Words.{has_pending};
ghost use Rattle.list_laws.specs.Prefixes.{IsPrefix};

use crate::home::Home;

/// At each moment between two steps: while a pass writes, no pass reads.
pub fn nobody_reads_while_one_writes<H: Home>()
    ensures { (places : ℕ) (s : State (Slot H H.Share) (View H.Entry)) (i j : ℕ) (v w : View H.Entry)
        → IsKept H.number_of H.stands H.share_stands places s → get_elem? s.views i ≡ some v
        → v.phase ≡ Writing places → get_elem? s.views j ≡ some w → w.phase ≢ Reading }
{}

/// At each moment between two steps: no two passes have the intent.
pub fn one_has_the_intent<H: Home>()
    ensures { (places : ℕ) (s : State (Slot H H.Share) (View H.Entry)) (i j : ℕ) (v w : View H.Entry)
        → IsKept H.number_of H.stands H.share_stands places s → j ≢ i → get_elem? s.views i ≡ some v
        → v.intent ≡ true → get_elem? s.views j ≡ some w → w.intent ≢ true }
{}

/// What any two passes have seen, also such as never met, are beginnings of one history: the shorter one begins the longer one.
pub fn all_see_one_history<H: Home>()
    ensures { (places : ℕ) (s : State (Slot H H.Share) (View H.Entry)) (i j : ℕ) (v w : View H.Entry)
        → IsKept H.number_of H.stands H.share_stands places s → get_elem? s.views i ≡ some v
        → get_elem? s.views j ≡ some w → length v.seen ≤ length w.seen → IsPrefix v.seen w.seen }
{}

/// A pass that reads has seen all that any pass has seen.
pub fn who_reads_has_seen_all<H: Home>()
    ensures { (places : ℕ) (s : State (Slot H H.Share) (View H.Entry)) (i j : ℕ) (v w : View H.Entry)
        → IsKept H.number_of H.stands H.share_stands places s → get_elem? s.views i ≡ some v
        → get_elem? s.views j ≡ some w → w.phase ≡ Reading → IsPrefix v.seen w.seen }
{}

/// Each step adds one sighting at most, and only where it found the pending mark in the word of the seat's own place.
pub fn a_sighting_is_of_the_mark<H: Home>()
    ensures { (st : Step (Slot H H.Share)) (m : Me (Slot H H.Share) (View H.Entry)) (found : ℕ)
        (m' : Me (Slot H H.Share) (View H.Entry))
        → IsStep H.number_of H.stands H.share_stands st m found m'
        → (m'.0.sights ≡ m.0.sights)
        ⊎ (IsOnOwn st m × (has_pending found ≡ true) × (m'.0.sights ≡ counted m.0.sights)) }
{}
