//! A question that is asked while another pass announces a write.
ghost use Rattle.std.specs.Prelude.{◌≡◌, ◌≢◌, ℕ, ◌<◌, Some, true, All, slice_index_or};
ghost use Rattle.write_history.specs.Changes.{is_edit};
ghost use Rattle.action_lock.specs.Passes.{IsPassOf, view_of};

use crate::counted::{Rows, Signs};
use action_lock::{ActionLock, Gate, Pass, Point};
use ide_calls::{IdeHome, Stepped, Store, change, index_step};
use nonblocking_read::{SoftRefusal, soft};
use queries::Query;
use std::alloc::Global;
use std::sync::Wait;
use std::sync::atomic::{AtomicU64, Ordering};
use std::thread::{Threads, for_each_mut};
use write_history::Change;

/// A gate that holds nobody.
struct NoGate {}

impl Gate for NoGate {
    fn at(&self, _point: Point) -> bool {
        false
    }
}

/// One that asks, or one that writes, and what it was told.
struct Lane {
    pass: Pass<IdeHome>,
    /// The number of rows of the answer; nothing where the question was cancelled.
    rows: Option<usize>,
    right: bool,
}

/// How often a question looked, and how many rows its answer has; nothing where it was cancelled.
pub type Told = (u64, Option<usize>);

/// A lock and its first pass, where it could not be closed.
pub type Left = (ActionLock<IdeHome>, Pass<IdeHome>);

/// Has one file made and indexed, and a question asked softly, with one attempt, while a write is announced behind this look, if it isn't 0.
/// What that comes to, if all went through.
pub fn asked_beside<R: Threads + Wait + Sync>(
    rt: &R,
    alloc: Global,
    first_change: Change,
    query: &Query,
    announced_at: u64,
) -> Result<Option<Told>, Left>
    requires { is_edit first_change ≡ true }
{
    let Ok(home) = IdeHome::new(alloc) else {
        return Ok(None);
    };
    let Ok((lock, mut first)) = ActionLock::new(alloc, home, 2) else {
        return Ok(None);
    };
    let Ok(second) = lock.split(&mut first) else {
        unreachable!()
    };
    let filled = fill(rt, alloc, &lock, &mut first, first_change);
    let (reader, writer, told) = played(rt, alloc, &lock, query, announced_at, first, second);
    close(lock, reader, writer)?;
    Ok(told.filter(|_| filled))
}

/// Has one pass ask and the other write. Both passes, and what that comes to, if all went through.
fn played<R: Threads + Wait + Sync>(
    rt: &R,
    alloc: Global,
    lock: &ActionLock<IdeHome>,
    query: &Query,
    announced_at: u64,
    first: Pass<IdeHome>,
    second: Pass<IdeHome>,
) -> (Pass<IdeHome>, Pass<IdeHome>, Option<Told>)
    requires first { IsPassOf lock.now first }
    requires second { IsPassOf lock.now second }
    ensures first { IsPassOf lock.now result.0 }
    ensures second { IsPassOf lock.now result.1
        × ((view_of result.1).number ≡ (view_of second).number) }
{
    let signs = Signs {
        looks: AtomicU64::new(0),
        announced_at,
        clock: AtomicU64::new(0),
    };
    let mut lanes = [idle_lane(first), idle_lane(second)];
    act_both(rt, alloc, lock, query, &signs, &mut lanes);
    let [reader, writer] = lanes;
    ended(reader, writer, signs.looks.load(Ordering::SeqCst))
}

/// The passes of two lanes, and what they come to after so many looks.
fn ended(reader: Lane, writer: Lane, looks: u64) -> (Pass<IdeHome>, Pass<IdeHome>, Option<Told>)
    ensures first { result.0 ≡ reader.pass }
    ensures second { result.1 ≡ writer.pass }
{
    let Lane {
        pass: first,
        rows,
        right: read,
    } = reader;
    let Lane {
        pass: second,
        rows: _,
        right: written,
    } = writer;
    let told = if read & written {
        Some((looks, rows))
    } else {
        None
    };
    (first, second, told)
}

/// Makes a change, and takes the file in that is unready then. Whether both went through.
fn fill<R: Wait>(
    rt: &R,
    alloc: Global,
    lock: &ActionLock<IdeHome>,
    pass: &mut Pass<IdeHome>,
    first_change: Change,
) -> bool
    requires pass { IsPassOf lock.now pass.old }
    requires edit { is_edit first_change ≡ true }
    ensures { IsPassOf lock.now pass.new × ((view_of pass.new).number ≡ (view_of pass.old).number) }
{
    let store = Store::empty(alloc);
    let changed = change(rt, alloc, lock, pass, 0, first_change).is_ok();
    match index_step(rt, alloc, lock, &store, pass, None, &NoGate {}) {
        Ok(Stepped::Taken { position: _ }) => changed,
        _ => false,
    }
}

/// A lane of this pass.
fn idle_lane(pass: Pass<IdeHome>) -> Lane
    ensures { result.pass ≡ pass }
{
    Lane {
        pass,
        rows: None,
        right: false,
    }
}

/// Plays both lanes at once: the first asks, and the second writes.
fn act_both<R: Threads + Wait + Sync>(
    rt: &R,
    alloc: Global,
    lock: &ActionLock<IdeHome>,
    query: &Query,
    signs: &Signs,
    lanes: &mut [Lane; 2],
)
    requires lanes { All (λ lane. IsPassOf lock.now lane.pass) lanes.old }
    ensures run { (k : ℕ) (d : Lane) → k < 2
        → IsPassOf lock.now (slice_index_or lanes.new k d).pass
        × ((view_of (slice_index_or lanes.new k d).pass).number
        ≡ (view_of (slice_index_or lanes.old k d).pass).number) }
{
    for_each_mut(
        rt,
        lanes,
        2,
        &|index: usize, lane: &mut Lane| -> ()
            requires { IsPassOf lock.now lane.now.pass }
            ensures { IsPassOf lock.entry.now lane.exit.now.pass
                × ((view_of lane.exit.now.pass).number ≡ (view_of lane.entry.now.pass).number) }
        { act(rt, alloc, lock, query, signs, index, lane) },
    );
}

/// What one lane does.
fn act<R: Wait>(
    rt: &R,
    alloc: Global,
    lock: &ActionLock<IdeHome>,
    query: &Query,
    signs: &Signs,
    index: usize,
    lane: &mut Lane,
)
    requires { IsPassOf lock.now lane.old.pass }
    ensures { IsPassOf lock.now lane.new.pass
        × ((view_of lane.new.pass).number ≡ (view_of lane.old.pass).number) }
{
    if index == 0 {
        match ask_softly(rt, alloc, lock, &mut lane.pass, query, signs) {
            Ok(rows) => {
                lane.rows = Some(rows);
                lane.right = true;
            }
            Err(refusal) => lane.right = refusal == SoftRefusal::Cancelled { attempts: 1 },
        }
    } else {
        lane.right = signs.announced_at == 0 || write_nothing(rt, lock, &mut lane.pass, signs);
    }
}

/// Asks with one attempt.
fn ask_softly<R: Wait>(
    rt: &R,
    alloc: Global,
    lock: &ActionLock<IdeHome>,
    pass: &mut Pass<IdeHome>,
    query: &Query,
    signs: &Signs,
) -> Result<usize, SoftRefusal>
    requires { IsPassOf lock.now pass.old }
    ensures { IsPassOf lock.now pass.new × ((view_of pass.new).number ≡ (view_of pass.old).number) }
{
    let mut work = Rows { query, signs };
    let rows = soft(rt, alloc, lock, pass, 1, &mut work, &NoGate {})?;
    Ok(rows.unwrap_or(0))
}

/// Announces a write when the clock has beaten, begins it, and ends it with nothing written. Whether the clock beat in time.
fn write_nothing<R: Wait>(
    rt: &R,
    lock: &ActionLock<IdeHome>,
    pass: &mut Pass<IdeHome>,
    signs: &Signs,
) -> bool
    requires { IsPassOf lock.now pass.old }
    ensures { IsPassOf lock.now pass.new × ((view_of pass.new).number ≡ (view_of pass.old).number) }
{
    pass.intent(rt, lock);
    let in_time = signs.strike(1);
    pass.announce(lock);
    signs.beat();
    pass.write(rt, lock);
    pass.abandon(lock);
    pass.release(lock);
    in_time
}

/// Meets the second pass into the first, which is the last one then, and closes the lock.
fn close(lock: ActionLock<IdeHome>, first: Pass<IdeHome>, second: Pass<IdeHome>) -> Result<(), Left>
    requires first { IsPassOf lock first }
    requires second { IsPassOf lock second × ((view_of second).number ≢ Some 0) }
{
    let mut first = first;
    lock.meet(second, &mut first);
    if lock.is_last(&mut first) {
        lock.close(first);
        Ok(())
    } else {
        Err((lock, first))
    }
}
