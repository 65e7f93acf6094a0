//! Why a step isn't made.
use std::alloc::AllocError;
use write_history::Refusal;

/// Why no change of a list is made.
#[derive(Clone, Copy, Debug, PartialEq, Eq, Drop)]
pub enum EnterRefusal {
    /// The change at this place of the list, from 1, is the first that is refused.
    Refused { place: u32, why: Refusal },
    /// Memory ran out.
    OutOfMemory,
}

/// Why a file isn't taken in.
#[derive(Clone, Copy, Debug, PartialEq, Eq, Drop)]
pub enum IntakeRefusal {
    /// No live file has the id.
    NoSuchFile,
    /// The history is full.
    HistoryFull,
    /// Memory ran out.
    OutOfMemory,
}

impl From<AllocError> for IntakeRefusal {
    ghost use Rattle.std.specs.Prelude.{◌≡◌};
    ghost use Rattle.replay.specs.declared.refusal.IntakeRefusal.TheVariants.{OutOfMemory};

    ghost from_gives = { λ e refusal. refusal ≡ OutOfMemory };

    fn from(_: AllocError) -> IntakeRefusal {
        IntakeRefusal::OutOfMemory
    }
}
