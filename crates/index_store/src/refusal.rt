//! Why bytes are no store.
ghost use Rattle.std.specs.Prelude.{◌≡◌};
ghost use Rattle.index_store.specs.declared.refusal.StoreRefusal.TheVariants.{OutOfMemory};

use std::alloc::AllocError;
use thiserror::Error;

/// Why `Store::read` gives no store.
#[derive(Debug, Drop, Error)]
pub enum StoreRefusal {
    /// The version byte at this place, from 0, is another than 1: that of the format or of the rows of an index.
    #[error("version {found} stands at {at}, and not 1")]
    OtherVersion { at: usize, found: u8 },
    /// The field that begins at this place, in bytes from 0, is cut by the end or unlawful, or it is the first byte
    /// behind the last entry.
    #[error("no store stands in the bytes from {at} on")]
    BadStore { at: usize },
    /// The entry with this number, from 1, is the first with data other than those of its text.
    #[error("entry {entry} has other data than its text")]
    WrongData { entry: u32 },
    /// There was no memory.
    #[error("there was no memory")]
    OutOfMemory,
}

impl From<AllocError> for StoreRefusal {
    ghost from_gives = { λ _ e. e ≡ OutOfMemory };

    fn from(_e: AllocError) -> StoreRefusal {
        StoreRefusal::OutOfMemory
    }
}
