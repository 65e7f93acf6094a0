//! Why a change isn't made.
use write_history::Refusal;

/// Why a change is not made.
#[derive(Clone, Copy, Debug, PartialEq, Eq, Drop)]
pub enum ChangeRefusal {
    /// It is refused after a prefix of the history, of this length, by its first reason.
    Refused { at: u64, why: Refusal },
    /// Memory ran out, and nothing has changed.
    OutOfMemory,
}
