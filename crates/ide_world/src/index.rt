//! Indexing: the work of an unready file, and the data made from its text.
ghost use Rattle.std.specs.Prelude.{◌≡◌, IfOk, IfSome, option_map};
ghost use Rattle.overlay_index.specs.Parts.{parts_of};
ghost use Rattle.ide_world.specs.Task.{task_with_id, IsOfWorld};

use crate::State;
use crate::data::{Job, Made};
use crate::readers::mark;
use dumb_mode::kind_of;
use overlay_index::{FileData, data_of};
use std::alloc::{AllocError, Global};

/// The work of indexing a file, where it is unready.
pub fn job(state: &State, id: u32) -> Result<Option<Job>, AllocError>
    ensures task { IfOk result
        (λ job. option_map
        (λ j.
        record { file = j.file; kind = j.kind; stamp = j.stamp; content = j.text }) job
        ≡ task_with_id state.now.world id) }
    ensures of_world { IfOk result
        (λ job. IfSome job
        (λ j. IsOfWorld state.now.world
        (record { file = j.file; kind = j.kind; stamp = j.stamp; content = j.text }))) }
{
    let Some(row) = state.row(id) else {
        return Ok(None);
    };
    let Some(kind) = kind_of(&row.path) else {
        return Ok(None);
    };
    let Some(mark) = mark(state, id) else {
        return Ok(None);
    };
    if !mark.is_unready() {
        return Ok(None);
    }
    Ok(Some(Job {
        file: id,
        kind,
        stamp: row.stamp,
        text: row.content.share()?,
    }))
}

/// The index data of a job, by its kind. It looks at the job's kind and text alone, so it may run outside every lock.
pub fn make(alloc: Global, job: Job) -> Result<Made, AllocError>
    ensures file { IfOk result (λ made. made.file ≡ job.file) }
    ensures kind { IfOk result (λ made. made.kind ≡ job.kind) }
    ensures stamp { IfOk result (λ made. made.stamp ≡ job.stamp) }
    ensures text { IfOk result (λ made. made.text ≡ job.text) }
{
    let parts = data_of(alloc, job.kind, job.text.as_text())?;
    Ok(make_from(job, parts))
}

/// The index data of a job, where they are there already: those of the job's text, by its kind. It takes no memory, and no time
/// that grows with the text.
pub fn make_from(job: Job, parts: FileData) -> Made
    requires { parts ≡ parts_of job.kind job.text }
    ensures file { result.file ≡ job.file }
    ensures kind { result.kind ≡ job.kind }
    ensures stamp { result.stamp ≡ job.stamp }
    ensures text { result.text ≡ job.text }
{
    Made {
        file: job.file,
        kind: job.kind,
        stamp: job.stamp,
        text: job.text,
        parts,
    }
}
