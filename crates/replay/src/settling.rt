//! What a step of a settle did.

/// What a step of a settle did.
#[derive(Clone, Copy, Debug, PartialEq, Eq, Drop)]
pub enum Settling {
    /// No file is unready.
    Over,
    /// The history is full, and this file is unready, the one with the lowest id.
    Full { file: u32 },
    /// The unready file with the lowest id, this one, was taken in.
    Taken { file: u32 },
}
