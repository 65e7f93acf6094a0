//! Index data out of a store, where it has them.
ghost use Rattle.std.specs.Prelude.{◌≡◌, IfOk};

use ide_world::{Job, Made, make, make_from};
use index_store::Store;
use std::alloc::{AllocError, Global};

/// The index data of a job: the store's, where it has the job's text with its kind, else made anew. Like `make`, it looks at the
/// job's kind and text alone, so it may run outside every lock.
pub fn make_stored(alloc: Global, store: &Store, job: Job) -> Result<Made, AllocError>
    ensures file { IfOk result (λ made. made.file ≡ job.file) }
    ensures kind { IfOk result (λ made. made.kind ≡ job.kind) }
    ensures stamp { IfOk result (λ made. made.stamp ≡ job.stamp) }
    ensures text { IfOk result (λ made. made.text ≡ job.text) }
{
    match store.data_for(job.kind, job.text.as_text())? {
        Some(parts) => Ok(make_from(job, parts)),
        None => make(alloc, job),
    }
}
