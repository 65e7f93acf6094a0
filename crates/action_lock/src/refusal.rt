//! Why a call on the lock was refused.
/// Why no pass is split off.
#[derive(Clone, Copy, Debug, PartialEq, Eq)]
pub enum SplitRefusal {
    /// The pass has given this many numbers, its own included, and may give no more.
    Full { drawn: u32 },
}

/// Why a try to read is refused.
#[derive(Clone, Copy, Debug, PartialEq, Eq)]
pub enum ReadRefusal {
    /// A write waits or goes on: the word of the pass's place had the pending mark.
    Pending { word: u64 },
    /// Another seat has the turn: the word of the pass's place had it, and no pending mark.
    Turn { word: u64 },
    /// There was no memory for a share, or there was none when the place was opened last.
    OutOfMemory,
}

/// Why a try to get the intent is refused.
#[derive(Clone, Copy, Debug, PartialEq, Eq)]
pub enum IntentRefusal {
    /// Another pass has the intent.
    Held,
}
