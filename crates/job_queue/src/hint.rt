//! Hints that a file is to be indexed.

/// A hint that this file is to be indexed.
#[derive(Clone, Copy, Debug, PartialEq, Eq)]
pub struct Hint {
    /// The id of the file.
    pub file: u32,
    /// The number of the pass that put it.
    pub pusher: u32,
    /// Its place among the hints that this pass put, from 1 on.
    pub turn: u32,
}

/// The queue was full. The hint, which is not in it, has the turn that it would have had.
#[derive(Clone, Copy, Debug, PartialEq, Eq)]
pub struct Full {
    /// The hint that found no room.
    pub hint: Hint,
}
