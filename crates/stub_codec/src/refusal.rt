//! Why bytes give no list.

use thiserror::Error;

/// Why `decode` gives no list.
#[derive(Debug, Drop, Error)]
pub enum StubRefusal {
    /// The field that begins at this place, in bytes from 0, is cut by the end or unlawful, or it is the first byte
    /// behind the last stub.
    #[error("no stub stands in the bytes from {at} on")]
    BadStub { at: usize },
    /// There was no memory.
    #[error("there was no memory")]
    OutOfMemory,
}
