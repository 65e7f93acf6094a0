//! The files of the current folder as a tree.

ghost use Rattle.std.specs.Prelude.{◌≡◌, ◌≤◌, None, IfOk, vec_len};
ghost use Rattle.ide_io.specs.Files.{max_file_len};

use crate::fault_count::FaultCount;
use crate::reader_source::ReaderSource;
use crate::reading::{ReadAllError, read_all};
use crate::tree::{MAX_FILE_LEN, ReadFileError, Tree};
use ide_text::Name;
use std::alloc::Global;
use std::fs::File;
use std::rt::Files;

/// The files that the system finds from the current folder. It tells nothing of their bytes.
///
/// A path is given to the system as it is: it may lead out of the folder. Whatever the system
/// refuses is a fault.
#[derive(Drop)]
pub struct FolderTree<'a, R> {
    /// What the system is asked by.
    pub rt: &'a R,
    /// How many faults it has met.
    pub faults: FaultCount,
}

impl<'a, R: Files> FolderTree<'a, R> {
    /// The tree of the current folder, which has met no fault.
    pub fn new(rt: &'a R) -> FolderTree<'a, R>
        ensures { result.faults ≡ 0 }
    {
        FolderTree {
            rt,
            faults: FaultCount::new(),
        }
    }
}

impl<R: Files> Tree for FolderTree<'_, R> {
    ghost files = { λ _. None };

    ghost faults = { λ tree. tree.faults };

    ghost asks = { λ _ _ _. Unit {0} };

    fn read_file(&mut self, alloc: Global, path: &Name) -> Result<Vec<u8>, ReadFileError> {
        let path = path.to_string(alloc)?;
        match read_path(self.rt, alloc, path.as_str()) {
            Ok(bytes) => Ok(bytes),
            Err(ReadAllError::OutOfMemory) => Err(ReadFileError::OutOfMemory),
            Err(_) => Err(ReadFileError::from(self.faults.raise())),
        }
    }
}

/// The bytes of the file at a path, if they are few enough.
fn read_path<R: Files>(rt: &R, alloc: Global, path: &str) -> Result<Vec<u8>, ReadAllError>
    ensures { IfOk result (λ v. vec_len v ≤ max_file_len) }
{
    let Ok(file) = File::open(rt, path) else {
        return Err(ReadAllError::Failed);
    };
    read_all(alloc, &mut ReaderSource::new(file), MAX_FILE_LEN)
}
