//! A walk over the files that workers try without a hint.

use ide_calls::Stepped;
use std::alloc::AllocError;
use std::sync::atomic::{AtomicU64, Ordering};

/// How far the workers of a workspace have come in a walk over its files, which they share: without a hint each tries the next one, so
/// that they go in order of ids, and two seldom make the same file's data. Nothing that is answered depends on it.
#[derive(Drop)]
pub struct SharedCursor {
    next: AtomicU64,
}

impl SharedCursor {
    /// A walk that begins with the first file.
    pub fn new() -> SharedCursor {
        SharedCursor {
            next: AtomicU64::new(0),
        }
    }

    /// The id that the walk has come to. It goes on.
    pub(crate) fn step(&self) -> u32 {
        self.next
            .fetch_add(1, Ordering::SeqCst)
            .min(u64::from(u32::MAX)) as u32
    }

    /// The walk goes on behind a file that was hinted, if it hasn't come so far: hints come in the same order.
    pub(crate) fn pass(&self, file: u32) {
        let behind = u64::from(file) + 1;
        let next = self.next.load(Ordering::SeqCst);
        if next < behind {
            let _ = self
                .next
                .compare_exchange(next, behind, Ordering::SeqCst, Ordering::SeqCst);
        }
    }

    /// Where a step found nothing to do the walk begins anew.
    pub(crate) fn end_with(&self, step: &Result<Stepped, AllocError>) {
        if let Ok(Stepped::Idle { at: _ }) = step {
            self.next.store(0, Ordering::SeqCst);
        }
    }
}
