//! Why a folder or a file wasn't read.

ghost use Rattle.std.specs.Prelude.{◌≡◌};
ghost use Rattle.folders.specs.declared.unread.Unread.TheVariants as variant;

use std::alloc::AllocError;
use std::io::{Error, ErrorKind};

/// Why a folder or a file wasn't read.
#[derive(Clone, Copy, Debug, PartialEq, Eq)]
pub enum Unread {
    /// It isn't there, isn't what it was asked for, or the system refuses it.
    Failed,
    /// Memory ran out.
    OutOfMemory,
}

impl From<AllocError> for Unread {
    ghost from_gives = { λ _ e. e ≡ variant.OutOfMemory };

    fn from(_error: AllocError) -> Unread {
        Unread::OutOfMemory
    }
}

impl From<Error> for Unread {
    fn from(error: Error) -> Unread {
        match error.kind() {
            ErrorKind::OutOfMemory => Unread::OutOfMemory,
            _ => Unread::Failed,
        }
    }
}
