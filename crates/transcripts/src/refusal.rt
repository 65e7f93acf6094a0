//! Why the loads of a script aren't read.
use std::alloc::{AllocError, AllocFailed};

/// Why the loads of a script aren't read.
#[derive(Clone, Copy, Debug, PartialEq, Eq)]
pub enum LoadRefusal {
    /// The tree failed at the file of a load.
    TreeFault,
    /// Memory ran out.
    OutOfMemory,
}

impl From<AllocError> for LoadRefusal {
    ghost use Rattle.std.specs.Prelude.{◌≡◌};
    ghost use Rattle.transcripts.specs.declared.refusal.LoadRefusal.TheVariants.{OutOfMemory};

    ghost from_gives = { λ _ refusal. refusal ≡ OutOfMemory };

    fn from(_: AllocError) -> LoadRefusal {
        LoadRefusal::OutOfMemory
    }
}

impl<T: Drop> From<AllocFailed<T>> for LoadRefusal {
    ghost use Rattle.std.specs.Prelude.{◌≡◌};
    ghost use Rattle.transcripts.specs.declared.refusal.LoadRefusal.TheVariants.{OutOfMemory};

    ghost from_gives = { λ _ refusal. refusal ≡ OutOfMemory };

    fn from(_: AllocFailed<T>) -> LoadRefusal {
        LoadRefusal::OutOfMemory
    }
}
