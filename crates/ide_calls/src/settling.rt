//! A settle: every unready file is taken in, under one intent.
ghost use Rattle.std.specs.Prelude.{◌≡◌, Some, IfOk, IfErr, OnOk, OnErr};
ghost use Rattle.std.specs.List.{All};
ghost use Rattle.action_lock.specs.Advances.{Advances};
ghost use Rattle.action_lock.specs.Passes.{view_of, IsSamePass, IsPassOf, Intends};
ghost use Rattle.ide_calls.specs.Made.{Continues};
ghost use Rattle.ide_calls.specs.Ahead.{StaysOfWorld};
ghost use Rattle.ide_calls.specs.Reads.{HasOnlyLearned};
ghost use Rattle.ide_calls.specs.Settling.{IsSettled, HasStopped};
ghost use Rattle.ide_calls.specs.Turn.{HasFoundLowest, HasTurned, GoesThrough, Stops};

use crate::ahead::Ahead;
use crate::lowest::{Lowest, prepare_lowest};
use crate::settle_refusal::SettleRefusal;
use crate::{IdeHome, write_entry};
use action_lock::{ActionLock, Pass};
use history_laws::laws::histories_go_on;
use ide_world::laws::a_task_stays_of_the_world;
use index_store::Store;
use std::alloc::{AllocError, Global};
use std::sync::Wait;
use std::thread::Threads;
use write_history::{Change, Changes, Entry};

/// Takes every unready file in, in order of ids, one entry each, for a line of a script. It answers with the number of
/// entries after which no file is unready. Index data are the store's, where it has them; on more than one processor, those of
/// other files to come are made on threads of their own meanwhile. May block.
pub fn settle<R: Threads + Wait>(
    rt: &R,
    alloc: Global,
    lock: &ActionLock<IdeHome>,
    store: &Store,
    pass: &mut Pass<IdeHome>,
    line: u32,
) -> Result<u64, SettleRefusal>
    requires { IsPassOf lock.now pass.old }
    ensures pass { Continues lock.now pass.old pass.new }
    ensures ok { IfOk result (IsSettled line (view_of pass.old) (view_of pass.new)) }
    ensures err { IfErr result (HasStopped line (view_of pass.old) (view_of pass.new)) }
{
    let seat = pass.number();
    let mut ahead = Ahead::new(alloc);
    pass.intent(rt, lock);
    let answer = settle_with_intent(rt, alloc, lock, store, pass, seat, line, &mut ahead);
    pass.release(lock);
    ahead.join_all(rt);
    answer
}

/// What a turn of a settle did.
pub(crate) enum SettleTurn {
    /// No file was unready after this many entries.
    Smart { at: u64 },
    /// The history is full, with this many entries.
    Full { at: u64 },
    /// The unready file with the lowest id was taken in.
    Taken,
}

/// A settle under the intent that the pass, whose number is `seat`, has.
fn settle_with_intent<R: Threads + Wait>(
    rt: &R,
    alloc: Global,
    lock: &ActionLock<IdeHome>,
    store: &Store,
    pass: &mut Pass<IdeHome>,
    seat: u32,
    line: u32,
    ahead: &mut Ahead,
) -> Result<u64, SettleRefusal>
    requires intends { Intends lock.now pass.old }
    requires own { (view_of pass.old).number ≡ Some seat }
    requires ahead { All (StaysOfWorld (view_of pass.old).seen) ahead.old }
    ensures pass { Intends lock.now pass.new × IsSamePass pass.old pass.new }
    ensures advances { Advances (view_of pass.old) (view_of pass.new) }
    ensures ok { IfOk result (GoesThrough seat line (view_of pass.old) (view_of pass.new)) }
    ensures err { IfErr result (Stops seat line (view_of pass.old) (view_of pass.new)) }
{
    for _ in rt.forever() {
        match take_lowest_in(rt, alloc, lock, store, pass, seat, line, ahead) {
            Ok(SettleTurn::Taken) => (),
            Ok(SettleTurn::Smart { at }) => return Ok(at),
            Ok(SettleTurn::Full { at }) => return Err(SettleRefusal::HistoryFull { at }),
            Err(_) => return Err(SettleRefusal::OutOfMemory),
        }
    }
    unreachable!()
}

/// Takes the unready file with the lowest id in, where there is one and the history has room.
fn take_lowest_in<R: Threads + Wait>(
    rt: &R,
    alloc: Global,
    lock: &ActionLock<IdeHome>,
    store: &Store,
    pass: &mut Pass<IdeHome>,
    seat: u32,
    line: u32,
    ahead: &mut Ahead,
) -> Result<SettleTurn, AllocError>
    requires intends { Intends lock.now pass.old }
    requires own { (view_of pass.old).number ≡ Some seat }
    requires ahead { All (StaysOfWorld (view_of pass.old).seen) ahead.old }
    ensures pass { Intends lock.now pass.new × IsSamePass pass.old pass.new }
    ensures advances { Advances (view_of pass.old) (view_of pass.new) }
    ensures ok { IfOk result (HasTurned seat line (view_of pass.old) (view_of pass.new)) }
    ensures ahead { OnOk result (All (StaysOfWorld (view_of pass.new).seen) ahead.new) }
    ensures err { OnErr result (HasOnlyLearned (view_of pass.old) (view_of pass.new)) }
{
    match find_lowest(rt, alloc, lock, store, pass, ahead)? {
        Lowest::Nothing { at } => Ok(SettleTurn::Smart { at }),
        Lowest::Full { at } => Ok(SettleTurn::Full { at }),
        Lowest::Prepared { file, stamp, ready } => {
            let changes = Changes::one(Change::Intake { file, stamp });
            let entry = Entry {
                seat,
                line,
                changes,
            };
            write_entry(rt, lock, pass, ready, entry)?;
            Ok(SettleTurn::Taken)
        }
    }
}

/// Reads under the intent, and makes the intake of the unready file with the lowest id ready.
fn find_lowest<R: Threads + Wait>(
    rt: &R,
    alloc: Global,
    lock: &ActionLock<IdeHome>,
    store: &Store,
    pass: &mut Pass<IdeHome>,
    ahead: &mut Ahead,
) -> Result<Lowest, AllocError>
    requires intends { Intends lock.now pass.old }
    requires ahead { All (StaysOfWorld (view_of pass.old).seen) ahead.old }
    ensures pass { Intends lock.now pass.new × IsSamePass pass.old pass.new }
    ensures learned { HasOnlyLearned (view_of pass.old) (view_of pass.new) }
    ensures ok { IfOk result (HasFoundLowest (view_of pass.old) (view_of pass.new)) }
    ensures ahead { OnOk result (All (StaysOfWorld (view_of pass.new).seen) ahead.new) }
{
    a_task_stays_of_the_world();
    histories_go_on();
    let reading = pass.read(rt, alloc, lock)?;
    let lowest = prepare_lowest(rt, alloc, store, reading.share().state(), ahead);
    reading.leave();
    lowest
}
