//! Passes that catch up with what another has seen.
ghost use Rattle.std.specs.Prelude.{◌≡◌};
ghost use Rattle.action_lock.specs.Passes.{IsPassOf, view_of};
ghost use Rattle.list_laws.specs.Prefixes.{IsPrefix};

use crate::acts::Told;
use crate::board::{Append, Board};
use crate::lanes::Lane;
use crate::reads::read_waiting;
use crate::stage::{Left, begun, drawn_behind, ended};
use crate::writes::change_once;
use action_lock::{ActionLock, Pass};
use std::alloc::Global;
use std::sync::Wait;
use std::sync::atomic::AtomicU64;

/// Writes a note by the first of four passes, lets two others catch up with it, by its ticket and by a second one of the same, and reads in
/// all three others. Whether each found that note alone.
pub fn catches_up<R: Wait>(rt: &R, alloc: Global) -> Result<bool, Left> {
    let Some((lock, mut first)) = begun(alloc, (0, 0)) else {
        return Ok(false);
    };
    let mut one = drawn_behind(&lock, &mut first, 0);
    let mut two = drawn_behind(&lock, &mut first, 0);
    let three = drawn_behind(&lock, &mut first, 0);
    let clock = AtomicU64::new(0);
    let change = Append {
        alloc,
        text: Some(1),
        clock: &clock,
        until: 0,
    };
    let right = change_once(rt, &lock, &mut first, &change);
    hand_on(&lock, &mut first, &mut one, &mut two);
    let first = Lane { pass: first, right };
    let one = finds_one(rt, alloc, &lock, one);
    let two = finds_one(rt, alloc, &lock, two);
    let three = finds_one(rt, alloc, &lock, three);
    let (board, right) = ended(lock, first, one, two, three)?;
    Ok(right & (board.notes.len() == 1))
}

/// Two passes take in all that a first one has seen.
fn hand_on(
    lock: &ActionLock<Board>,
    first: &mut Pass<Board>,
    one: &mut Pass<Board>,
    two: &mut Pass<Board>,
)
    requires first { IsPassOf lock.now first.old }
    requires one { IsPassOf lock.now one.old }
    requires two { IsPassOf lock.now two.old }
    ensures first { IsPassOf lock.now first.new × (view_of first.new ≡ view_of first.old) }
    ensures one { IsPassOf lock.now one.new × ((view_of one.new).number ≡ (view_of one.old).number) }
    ensures two { IsPassOf lock.now two.new × ((view_of two.new).number ≡ (view_of two.old).number) }
    ensures seen { IsPrefix (view_of first.old).seen (view_of one.new).seen
        × IsPrefix (view_of first.old).seen (view_of two.new).seen }
{
    let mut ticket = first.ticket(lock);
    let again = ticket.again(lock);
    one.catch_up(lock, ticket);
    two.catch_up(lock, again);
}

/// A lane of this pass, which is right where a read finds one note.
fn finds_one<R: Wait>(
    rt: &R,
    alloc: Global,
    lock: &ActionLock<Board>,
    mut pass: Pass<Board>,
) -> Lane
    requires { IsPassOf lock.now pass }
    ensures { IsPassOf lock.now result.pass × ((view_of result.pass).number ≡ (view_of pass).number) }
{
    let told = read_waiting(rt, alloc, lock, &mut pass);
    Lane {
        pass,
        right: told == Told::Found(1),
    }
}
