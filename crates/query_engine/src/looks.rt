//! Looks at a watch: one as a call begins, and then by what it makes or meets: one after each 256 rows or types, or after
//! each file.
ghost use Rattle.std.specs.Prelude.{◌≡◌, ◌<◌, ◌+◌, ◌/◌, ◌%◌, ◌++◌, ◌∷◌, [], IfErr, OnOk, length};
ghost use Rattle.action_lock.specs.Counts.{counted};
ghost use Rattle.query_engine.specs.Looks.{rows_a_look, looks_at, HasLooked, EndsEarly};

use crate::answer::{AskRefusal, RowList};
use action_lock::Watch;

/// The number of rows after which a call looks once more.
const ROWS_A_LOOK: usize = 256;

/// A watch that never sees anything. It counts its looks, up to 2^64 - 1.
#[derive(Clone, Copy, Debug, PartialEq, Eq, Drop)]
pub struct NoWatch {
    looks: u64,
}

impl NoWatch {
    /// A watch that hasn't looked.
    pub fn new() -> NoWatch
        ensures { result.looks ≡ 0 }
    {
        NoWatch { looks: 0 }
    }

    /// How often it has looked.
    pub fn looks(&self) -> u64
        ensures { result ≡ self.now.looks }
    {
        self.looks
    }
}

impl Watch for NoWatch {
    ghost use Rattle.std.specs.Prelude.{◌≤◌};
    ghost use Rattle.std.proofs.Common.{le_refl, le_trans};

    ghost looks = { λ watch. watch.looks };

    ghost sightings = { λ watch. 0 };

    ghost can_look = { λ watch. Unit {0} };

    ghost stays = { λ a b. a.looks ≤ b.looks };

    ghost stays_itself = { λ a. le_refl a.looks };

    ghost stays_on = { λ a b c p q. le_trans p q };

    fn look(&mut self) -> bool {
        self.looks = self.looks.saturating_add(1);
        false
    }
}

/// Looks, and gives up where the work is to end.
pub(crate) fn look<W: Watch>(watch: &mut W) -> Result<(), AskRefusal>
    requires { W.can_look watch.old }
    ensures again { W.can_look watch.new }
    ensures stays { W.stays watch.old watch.new }
    ensures looked { HasLooked W.looks W.sightings W.stays result 1 watch.old watch.new }
    ensures once { W.looks watch.new ≡ counted (W.looks watch.old) }
    ensures cancelled { IfErr result (λ refusal. refusal ≡ AskRefusal.Cancelled) }
{
    if watch.look() {
        Err(AskRefusal::Cancelled)
    } else {
        Ok(())
    }
}

/// Puts a row at the end, and looks where the rows are a full number of 256 then.
pub(crate) fn add_row<T: Drop, W: Watch>(
    rows: &mut RowList<T>,
    row: T,
    watch: &mut W,
) -> Result<(), AskRefusal>
    requires { W.can_look watch.old }
    ensures again { W.can_look watch.new }
    ensures stays { W.stays watch.old watch.new }
    ensures added { OnOk result (rows.new ≡ rows.old ++ row ∷ []) }
    ensures looked { HasLooked W.looks W.sightings W.stays result
        (looks_at (length rows.old + 1)) watch.old watch.new }
    ensures early { IfErr result EndsEarly }
{
    rows.push(row)?;
    if rows.len() % ROWS_A_LOOK == 0 {
        look(watch)
    } else {
        Ok(())
    }
}

/// Looks where one more, beside so many since the last look, makes 256.
pub(crate) fn look_after_another<W: Watch>(met: &mut u8, watch: &mut W) -> Result<(), AskRefusal>
    requires { W.can_look watch.old }
    ensures again { W.can_look watch.new }
    ensures stays { W.stays watch.old watch.new }
    ensures met { met.new ≡ (met.old + 1) % rows_a_look }
    ensures looked { HasLooked W.looks W.sightings W.stays result
        ((met.old % rows_a_look + 1) / rows_a_look) watch.old watch.new }
    ensures early { IfErr result EndsEarly }
{
    *met = met.wrapping_add(1);
    if *met == 0 { look(watch) } else { Ok(()) }
}
