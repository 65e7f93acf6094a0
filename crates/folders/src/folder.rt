//! Where files are listed and read.

ghost use Rattle.std.specs.Prelude.{◌≡◌, ◌≤◌, Option, Some, None, vec_len, IfOk, IfSome, IsErrOf};
ghost use Rattle.folders.specs.Told.{Told, max_file_len};
ghost use Rattle.folders.specs.Below.{found_of, IsRising};

use crate::below::Below;
use crate::unread::Unread;
use std::alloc::Global;

/// The most bytes that a file may have.
pub const MAX_FILE_LEN: usize = 16_777_216;

/// A folder whose files are listed and read through a shared reference, so that several threads can
/// share it.
pub trait Folder {
    // What it tells; `None` tells nothing.
    ghost told: { Self → Option Told };

    /// What is below the folder with a name. The empty name is the current folder's.
    fn below(&self, alloc: Global, folder: &str) -> Result<Below, Unread>
        ensures found { IfOk result (λ below. IfSome (told self.now)
            (λ all. all.below folder.now ≡ Some (found_of below))) }
        ensures unread { IsErrOf result Unread.Failed
            → IfSome (told self.now) (λ all. all.below folder.now ≡ None) }
        ensures rising { IfOk result (λ below. IsRising (found_of below).files) };

    /// The bytes of the file with a name. One of more than `MAX_FILE_LEN` bytes can't be read.
    fn read(&self, alloc: Global, file: &str) -> Result<Vec<u8>, Unread>
        ensures bytes { IfOk result
            (λ v. IfSome (told self.now) (λ all. all.bytes file.now ≡ Some v.items)) }
        ensures unread { IsErrOf result Unread.Failed
            → IfSome (told self.now) (λ all. all.bytes file.now ≡ None) }
        ensures limit { IfOk result (λ v. vec_len v ≤ max_file_len) };
}
