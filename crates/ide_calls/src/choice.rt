//! Which file is indexed next, and its job.
ghost use Rattle.std.specs.Prelude.{◌≡◌, IfOk, option_map};
ghost use Rattle.std.specs.Option.{option_and_then};
ghost use Rattle.ide_world.specs.Task.{task_with_id};
ghost use Rattle.ide_calls.specs.Choice.{IsChoice, task_of_job};

use crate::probe::probe_in;
use ide_world::{Job, State, job};
use std::alloc::AllocError;

/// The job of the hinted file where it is unready, else of the first unready one from the id on at which the worker with this
/// number begins to look. None where no file is unready.
pub(crate) fn find_work(
    state: &State,
    seat: u32,
    hint: Option<u32>,
) -> Result<Option<Job>, AllocError>
    ensures { IfOk result (IsChoice state.now.world seat hint) }
{
    if let Some(found) = job_of(state, hint)? {
        return Ok(Some(found));
    }
    job_of(state, state.first_unready_from(probe_in(state, seat)))
}

/// The job of a file, where one is named and it is unready.
fn job_of(state: &State, id: Option<u32>) -> Result<Option<Job>, AllocError>
    ensures { IfOk result
        (λ job. option_map task_of_job job ≡ option_and_then (task_with_id state.now.world) id) }
{
    match id {
        Some(id) => job(state, id),
        None => Ok(None),
    }
}
