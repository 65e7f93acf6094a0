//! Where files are read.

ghost use Rattle.std.specs.Prelude.{◌≡◌, ◌≢◌, ◌≤◌, ℕ, List, Option, Some, Err, vec_len, IfOk, IfSome, IsErrOf};
ghost use Rattle.ide_io.specs.Fault.{HasFault};
ghost use Rattle.ide_io.specs.Files.{TreeFiles, max_file_len};
ghost use Rattle.ide_io.specs.declared.tree.ReadFileError.TheVariants as variant;

use crate::failed::Failed;
use ide_text::Name;
use std::alloc::{AllocError, Global};

/// The most bytes that a file may have.
pub const MAX_FILE_LEN: usize = 16_777_216;

/// Why a file wasn't read.
#[derive(Clone, Copy, Debug, PartialEq, Eq)]
pub enum ReadFileError {
    /// There is no such file, it's too long, or the tree met another fault.
    Failed,
    /// Memory ran out.
    OutOfMemory,
}

impl From<Failed> for ReadFileError {
    ghost from_gives = { λ _ e. e ≡ variant.Failed };

    fn from(_failed: Failed) -> ReadFileError {
        ReadFileError::Failed
    }
}

impl From<AllocError> for ReadFileError {
    ghost from_gives = { λ _ e. e ≡ variant.OutOfMemory };

    fn from(_error: AllocError) -> ReadFileError {
        ReadFileError::OutOfMemory
    }
}

/// Files by their paths.
pub trait Tree {
    // The files, where the tree tells them; `None` tells nothing.
    ghost files: { Self → Option TreeFiles };

    // How many faults the tree has met. The count stands still at 2^64 - 1.
    ghost faults: { Self → ℕ };

    // From the first state, asking once for the file at this path leaves the second state. A caller
    // over any tree can show it by a call of `read_file` alone, so it says which files were asked for.
    ghost asks: { Self → List ℕ → Self → Type 0 };

    /// The bytes of the file at a path. An absent path is a fault, and so is a file of more than
    /// `MAX_FILE_LEN` bytes.
    fn read_file(&mut self, alloc: Global, path: &Name) -> Result<Vec<u8>, ReadFileError>
        ensures bytes { IfOk result
            (λ v. IfSome (files self.old) (λ at. at path.now ≡ Some v.items)) }
        ensures limit { IfOk result (λ v. vec_len v ≤ max_file_len) }
        ensures asks { asks self.old path.now self.new }
        ensures files { files self.new ≡ files self.old }
        ensures never_falls { faults self.old ≤ faults self.new }
        ensures no_fault { result ≢ Err ReadFileError.Failed → faults self.new ≡ faults self.old }
        ensures fault { IsErrOf result ReadFileError.Failed
            → HasFault (faults self.old) (faults self.new) };
}
