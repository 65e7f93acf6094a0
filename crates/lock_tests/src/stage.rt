//! A scene, from the lock's beginning to its end.
ghost use Rattle.std.specs.Prelude.{◌≡◌, ◌≢◌, ◌+◌, ◌<◌, Some, IfSome};
ghost use Rattle.action_lock.specs.Passes.{IsPassOf, view_of};
ghost use Rattle.action_lock.specs.Views.{first_view};

use crate::acts::{Act, Told};
use crate::board::{Board, Note};
use crate::lanes::{Lane, play_all};
use action_lock::{ActionLock, Pass, SplitRefusal};
use std::alloc::{AllocFailed, Global};
use std::sync::Wait;
use std::thread::Threads;

/// What four passes of a lock over an empty board do at once, and what there is to be in the end.
pub struct Scene {
    /// The calls for a share that are refused: from this one on, so many.
    pub refused: (u64, u64),
    /// How many numbers are drawn and met again before each pass behind the first.
    pub skipped: (u8, u8, u32),
    /// Whether there is no number left then, of 65,536.
    pub full: bool,
    /// What each pass does.
    pub lanes: [&'static [(Act, Told)]; 4],
    /// The lists of notes of which one is there in the end.
    pub notes: &'static [&'static [Note]],
}

/// The pass whose number is so many behind the next. Those between are met at once.
pub fn drawn_behind(lock: &ActionLock<Board>, first: &mut Pass<Board>, skipped: u32) -> Pass<Board>
    requires pass { IsPassOf lock.now first.old }
    requires leads { ((view_of first.old).number ≡ Some 0) × (0 < (view_of first.old).drawn) }
    requires room { (view_of first.old).drawn + skipped < 65536 }
    ensures pass { IsPassOf lock.now first.new × ((view_of first.new).number ≡ Some 0) }
    ensures drawn { (view_of first.new).drawn ≡ (view_of first.old).drawn + skipped + 1 }
    ensures made { IsPassOf lock.now result × ((view_of result).number ≢ Some 0) }
{
    for drawn in 0..skipped {
        match lock.split(first) {
            Ok(pass) => lock.meet(pass, first),
            Err(_) => unreachable!(),
        }
    }
    match lock.split(first) {
        Ok(pass) => pass,
        Err(_) => unreachable!(),
    }
}

/// Whether there is no number left, of 65,536.
fn is_full(lock: &ActionLock<Board>, first: &mut Pass<Board>) -> bool
    requires pass { IsPassOf lock.now first.old }
    requires leads { ((view_of first.old).number ≡ Some 0) × (0 < (view_of first.old).drawn) }
    ensures { IsPassOf lock.now first.new × ((view_of first.new).number ≡ Some 0) }
{
    match lock.split(first) {
        Ok(pass) => {
            lock.meet(pass, first);
            false
        }
        Err(refusal) => refusal == SplitRefusal::Full { drawn: 65536 },
    }
}

/// A lock over an empty board, and its first pass.
pub fn begun(alloc: Global, refused: (u64, u64)) -> Option<(ActionLock<Board>, Pass<Board>)>
    ensures { IfSome result (λ made. IsPassOf made.0 made.1 × (view_of made.1 ≡ first_view 32)) }
{
    let board = Board::empty(alloc, refused.0, refused.1).ok()?;
    match ActionLock::new(alloc, board, 32) {
        Ok(made) => Some(made),
        Err(_) => None,
    }
}

/// A lock and its first pass, where it could not be closed.
pub type Left = (ActionLock<Board>, Pass<Board>);

/// Plays a scene. Whether all acts were told what they were to be, and the lock ended with the notes that it was to have.
pub fn is_right<R: Threads + Wait + Sync>(
    rt: &R,
    alloc: Global,
    scene: &Scene,
) -> Result<bool, Left> {
    let Some((lock, mut first)) = begun(alloc, scene.refused) else {
        return Ok(false);
    };
    let (a, b, c) = scene.skipped;
    let skipped = a as u32 + b as u32;
    let one = drawn_behind(&lock, &mut first, a as u32);
    let two = drawn_behind(&lock, &mut first, b as u32);
    let three = drawn_behind(&lock, &mut first, c.min(65_532 - skipped));
    let full = is_full(&lock, &mut first);
    let mut lanes = [lane(first), lane(one), lane(two), lane(three)];
    play_all(rt, alloc, &lock, &scene.lanes, &mut lanes);
    let [first, one, two, three] = lanes;
    let (board, right) = ended(lock, first, one, two, three)?;
    Ok(right & (full == scene.full) & is_any_of(&board.notes, scene.notes))
}

/// A lane of this pass.
fn lane(pass: Pass<Board>) -> Lane
    ensures { result.pass ≡ pass }
{
    Lane { pass, right: false }
}

/// The home value, and whether each lane was right, where the first pass is the last one when all others were met, and not before.
pub fn ended(
    lock: ActionLock<Board>,
    first: Lane,
    one: Lane,
    two: Lane,
    three: Lane,
) -> Result<(Board, bool), Left>
    requires first { IsPassOf lock first.pass }
    requires one { IsPassOf lock one.pass × ((view_of one.pass).number ≢ Some 0) }
    requires two { IsPassOf lock two.pass × ((view_of two.pass).number ≢ Some 0) }
    requires three { IsPassOf lock three.pass × ((view_of three.pass).number ≢ Some 0) }
{
    let Lane {
        pass: mut first,
        right,
    } = first;
    let early = lock.is_last(&mut first);
    let one = is_met(&lock, one, &mut first);
    let two = is_met(&lock, two, &mut first);
    let three = is_met(&lock, three, &mut first);
    if lock.is_last(&mut first) {
        Ok((lock.close(first), right & one & two & three & !early))
    } else {
        Err((lock, first))
    }
}

/// Meets the pass of a lane. Whether the lane was right.
fn is_met(lock: &ActionLock<Board>, lane: Lane, first: &mut Pass<Board>) -> bool
    requires first { IsPassOf lock.now first.old }
    requires lane { IsPassOf lock.now lane.pass × ((view_of lane.pass).number ≢ Some 0) }
    ensures { IsPassOf lock.now first.new }
{
    let Lane { pass, right } = lane;
    lock.meet(pass, first);
    right
}

/// Whether the list is one of these.
fn is_any_of(notes: &[Note], lists: &[&[Note]]) -> bool {
    lists.contains(&notes)
}

/// Whether a lock is refused where the share of one place is, and the home value comes back.
pub fn comes_back(alloc: Global, refused: u64) -> bool {
    let Ok(board) = Board::empty(alloc, refused, 1) else {
        return false;
    };
    match ActionLock::new(alloc, board, 32) {
        Ok((lock, pass)) => {
            drop(lock.close(pass));
            false
        }
        Err(AllocFailed { value }) => value.notes.is_empty(),
    }
}
