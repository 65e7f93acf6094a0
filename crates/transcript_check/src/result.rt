//! What is found of bytes that are said to be a transcript.

/// What is found of the bytes.
#[derive(Clone, Copy, Debug, PartialEq, Eq)]
pub enum Verdict {
    /// They are a transcript of the script.
    Good,
    /// They are none.
    Bad,
}

/// Why nothing is found.
#[derive(Clone, Copy, Debug, PartialEq, Eq)]
pub enum VerdictRefusal {
    /// The tree failed at the file of a load.
    TreeFault,
    /// Memory ran out.
    OutOfMemory,
}
