//! A batch of unready files, whose index data a thread of its own makes for a settle.
ghost use Rattle.std.specs.Prelude.{◌≡◌, IfOk, IfSome, map};
ghost use Rattle.std.specs.List.{All};
ghost use Rattle.ide_calls.specs.Ahead.{IsTask, tasks_of};
ghost use Rattle.ide_calls.specs.Choice.{task_of_job};
ghost use Rattle.ide_calls.specs.Intake.{task_of_made};

use ide_world::{Job, Made, State, job, make};
use index_store::Store;
use std::alloc::{AllocError, Global};
use std::collections::VecDeque;
use std::snapshot::Snapshot;
use std::thread::{Promise, PromisedHandle, Threads, spawn_with};

/// What a batch costs at least where there are files enough, in characters: some milliseconds of work.
const BATCH_COST: u32 = 262_144;

/// What a file costs beside its text.
const FILE_COST: u32 = 256;

/// The most files of a batch.
const MOST_FILES: u32 = BATCH_COST / FILE_COST;

/// A thread that makes the data of a batch, in order.
#[derive(Drop)]
pub(crate) struct Making {
    thread: PromisedHandle<Result<VecDeque<Made>, AllocError>, OfJobs>,
}

/// The promise that data are those of these jobs, in order.
#[derive(Drop)]
pub(crate) struct OfJobs {
    jobs: Snapshot<Vec<Job>>,
}

impl Promise<Result<VecDeque<Made>, AllocError>> for OfJobs {
    ghost use Rattle.std.specs.Prelude.{◌≡◌, IfOk, map};
    ghost use Rattle.ide_calls.specs.Choice.{task_of_job};
    ghost use Rattle.ide_calls.specs.Intake.{task_of_made};

    ghost kept_by = { λ promise result. IfOk result (λ made. map task_of_made made.items ≡ map task_of_job promise.jobs.value.items) };
}

impl Making {
    /// A thread that does jobs, or nothing where none can be started.
    pub(crate) fn start<R: Threads>(rt: &R, alloc: Global, jobs: Vec<Job>) -> Option<Making>
        ensures { IfSome result (λ making. tasks_of making ≡ map task_of_job jobs.items) }
    {
        let promise = OfJobs {
            jobs: Snapshot::of(&jobs),
        };
        match spawn_with(rt, promise, move || make_all(alloc, jobs)) {
            Ok(thread) => Some(Making { thread }),
            Err(_) => None,
        }
    }

    /// Waits for the thread, and gives the data, or nothing where it found no memory for them.
    pub(crate) fn join<R: Threads>(self, rt: &R) -> Option<VecDeque<Made>>
        ensures { IfSome result (λ made. map task_of_made made.items ≡ tasks_of self) }
    {
        self.thread.join(rt).ok()
    }
}

/// Jobs of unready files in order of ids, and what they cost in characters.
#[derive(Drop)]
pub(crate) struct Batch {
    pub(crate) jobs: Vec<Job>,
    pub(crate) cost: u32,
    /// The id behind the last of them.
    pub(crate) end: u32,
}

/// The jobs of the unready files from an id on that the store hasn't, until they are enough for a batch. Logarithmic for each.
pub(crate) fn batch_from(
    alloc: Global,
    store: &Store,
    state: &State,
    from: u32,
) -> Result<Batch, AllocError>
    ensures { IfOk result
        (λ batch. All (IsTask state.now.world) (map task_of_job batch.jobs.items)) }
{
    let mut jobs = Vec::new(alloc);
    let mut cost = 0u32;
    let mut end = from;
    for _ in 0..MOST_FILES {
        if BATCH_COST <= cost {
            break;
        }
        let Some(job) = job_from(state, end)? else {
            break;
        };
        end = job.file.saturating_add(1);
        if store.has(job.kind, job.text.as_text())? {
            continue;
        }
        cost = cost
            .saturating_add(FILE_COST)
            .saturating_add(job.text.len());
        jobs.push(job)?;
    }
    Ok(Batch { jobs, cost, end })
}

/// The job of the first unready file from an id on, where there is one.
fn job_from(state: &State, from: u32) -> Result<Option<Job>, AllocError>
    ensures { IfOk result (λ job. IfSome job (λ j. IsTask state.now.world (task_of_job j))) }
{
    match state.first_unready_from(from) {
        Some(id) if from <= id => job(state, id),
        _ => Ok(None),
    }
}

/// The data of jobs, in order.
fn make_all(alloc: Global, jobs: Vec<Job>) -> Result<VecDeque<Made>, AllocError>
    ensures { IfOk result (λ made. map task_of_made made.items ≡ map task_of_job jobs.items) }
{
    let mut all = VecDeque::with_capacity(alloc, jobs.len())?;
    for job in jobs {
        all.push_back(make(alloc, job)?)?;
    }
    Ok(all)
}
