//! What a step of indexing answers.

/// The answer of a step. A file of which it speaks was unready at the first read of the call, with the stamp at which its
/// data were made; the answer holds at the second.
#[derive(Clone, Copy, Debug, PartialEq, Eq)]
pub enum Stepped {
    /// No file was unready after the first `at` entries, the history at the one read of the call.
    Idle { at: u64 },
    /// The file isn't live any more.
    Gone { file: u32 },
    /// The file has another stamp than the data.
    Stale { file: u32, made: u64, present: u64 },
    /// The history is full, with this many entries.
    Refused { at: u64 },
    /// The data went in, as the entry at this position, from 1.
    Taken { position: u64 },
}
