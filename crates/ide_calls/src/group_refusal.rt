//! Why a group of changes isn't made.
use write_history::Refusal;

/// Why no change of a group is made.
#[derive(Clone, Copy, Debug, PartialEq, Eq, Drop)]
pub enum GroupChangeRefusal {
    /// After a prefix of the history, of this length, the change at this place, from 1, is the first that is refused.
    Refused { at: u64, place: u32, why: Refusal },
    /// Memory ran out, and nothing has changed.
    OutOfMemory,
}
