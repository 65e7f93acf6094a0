//! What an accepted change is answered.

/// Changes that went in as one entry.
#[derive(Clone, Copy, Debug, PartialEq, Eq, Drop)]
pub struct Accepted {
    /// The number of entries of the history, of which the entry is the last.
    pub at: u64,
    /// The first of the changed files, in the order of the changes, that is unready now, if one is.
    pub unready: Option<u32>,
}
