//! Why a script isn't played to its end.
use std::alloc::AllocError;

/// Why a script isn't played to its end.
#[derive(Clone, Copy, Debug, PartialEq, Eq)]
pub enum PlayRefusal {
    /// The tree failed at the store's file or at that of a load.
    TreeFault,
    /// Memory ran out.
    OutOfMemory,
}

impl From<AllocError> for PlayRefusal {
    ghost use Rattle.std.specs.Prelude.{◌≡◌};
    ghost use Rattle.ide_script.specs.declared.refusal.PlayRefusal.TheVariants.{OutOfMemory};

    ghost from_gives = { λ _ refusal. refusal ≡ OutOfMemory };

    fn from(_: AllocError) -> PlayRefusal {
        PlayRefusal::OutOfMemory
    }
}
