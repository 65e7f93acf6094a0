//! The unready file with the lowest id, which a settle takes in next.
ghost use Rattle.std.specs.Prelude.{◌≡◌, ◌==◌, ◌&&◌, Some, IfOk, OnOk};
ghost use Rattle.std.specs.List.{All};
ghost use Rattle.write_history.specs.World.{lowest_unready};
ghost use Rattle.ide_world.specs.Task.{IsOfWorld};
ghost use Rattle.ide_calls.specs.Ahead.{GoesOnAhead};
ghost use Rattle.ide_calls.specs.Choice.{task_of_job};
ghost use Rattle.ide_calls.specs.Intake.{task_of_made};
ghost use Rattle.ide_calls.specs.Turn.{IsLowest, IsMadeOf};

use crate::ahead::Ahead;
use crate::entries::entries;
use history_laws::laws::unready_files_have_an_order;
use ide_world::{Job, Made, Ready, State, job, make, make_from, prepare_intake};
use index_store::Store;
use std::alloc::{AllocError, Global};
use std::thread::Threads;
use write_history::MAX_ENTRIES;

/// What is to be done for the unready file with the lowest id, where there is one.
#[derive(Drop)]
pub(crate) enum Lowest {
    /// No file is unready after this many entries.
    Nothing { at: u64 },
    /// The history is full, with this many entries.
    Full { at: u64 },
    /// The intake of the file at its stamp is ready to go in.
    Prepared { file: u32, stamp: u64, ready: Ready },
}

/// Makes the intake of the unready file with the lowest id ready.
pub(crate) fn prepare_lowest<R: Threads>(
    rt: &R,
    alloc: Global,
    store: &Store,
    state: &State,
    ahead: &mut Ahead,
) -> Result<Lowest, AllocError>
    requires ahead { All (IsOfWorld state.now.world) ahead.old }
    ensures lowest { IfOk result (IsLowest state.now.world) }
    ensures ahead { OnOk result (GoesOnAhead state.now.world ahead.old ahead.new) }
{
    let at = entries(state);
    let Some(id) = state.lowest_unready() else {
        return Ok(Lowest::Nothing { at });
    };
    if at == MAX_ENTRIES {
        return Ok(Lowest::Full { at });
    }
    let made = make_lowest(rt, alloc, store, state, id, ahead)?;
    let file = made.file;
    let stamp = made.stamp;
    match prepare_intake(alloc, state, made) {
        Ok(ready) => Ok(Lowest::Prepared { file, stamp, ready }),
        Err(_) => Err(AllocError),
    }
}

/// The index data of the unready file with the lowest id: the store's, where it has them.
fn make_lowest<R: Threads>(
    rt: &R,
    alloc: Global,
    store: &Store,
    state: &State,
    id: u32,
    ahead: &mut Ahead,
) -> Result<Made, AllocError>
    requires unready { lowest_unready state.now.world ≡ Some id }
    requires ahead { All (IsOfWorld state.now.world) ahead.old }
    ensures made { IfOk result (IsMadeOf state.now.world id) }
    ensures ahead { OnOk result (GoesOnAhead state.now.world ahead.old ahead.new) }
{
    unready_files_have_an_order();
    let Some(job) = job(state, id)? else {
        unreachable!()
    };
    match store.data_for(job.kind, job.text.as_text())? {
        Some(parts) => Ok(make_from(job, parts)),
        None => make_missing(rt, alloc, store, state, job, ahead),
    }
}

/// The index data of the unready file with the lowest id, which the store hasn't: those that were made ahead, where they are of
/// this file at its stamp, else made now. Meanwhile a thread more may begin with files behind it.
fn make_missing<R: Threads>(
    rt: &R,
    alloc: Global,
    store: &Store,
    state: &State,
    job: Job,
    ahead: &mut Ahead,
) -> Result<Made, AllocError>
    requires of_world { IsOfWorld state.now.world (task_of_job job) }
    requires ahead { All (IsOfWorld state.now.world) ahead.old }
    ensures file { IfOk result (λ made. made.file ≡ job.file) }
    ensures stamp { IfOk result (λ made. made.stamp ≡ job.stamp) }
    ensures of_world { IfOk result (λ made. IsOfWorld state.now.world (task_of_made made)) }
    ensures ahead { OnOk result (GoesOnAhead state.now.world ahead.old ahead.new) }
{
    let first = ahead.take(rt);
    if let Err(refused) = ahead.begin(rt, alloc, store, state, job.file) {
        drop(first);
        drop(job);
        return Err(refused);
    }
    match first {
        Some(made) if is_of(&made, &job) => Ok(made),
        other => {
            drop(other);
            make(alloc, job)
        }
    }
}

/// Whether data are of the file of a job, and made at its stamp.
fn is_of(made: &Made, job: &Job) -> bool
    ensures { result ≡ (made.now.file == job.now.file && made.now.stamp == job.now.stamp) }
{
    made.file == job.file && made.stamp == job.stamp
}
