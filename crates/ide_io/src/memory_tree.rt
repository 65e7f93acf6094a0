//! A tree in memory.

ghost use Rattle.std.specs.Prelude.{◌≡◌, ◌≢◌, ◌≤◌, ◌<◌, Some, Err, length, vec_len, IfOk, IfSome, IsErrOf};
ghost use Rattle.ide_io.specs.Fault.{HasFault, next_count};
ghost use Rattle.ide_io.specs.Files.{files_of, max_file_len};

use crate::fault_count::FaultCount;
use crate::tree::{MAX_FILE_LEN, ReadFileError, Tree};
use ide_text::Name;
use std::alloc::Global;
use std::collections::BTreeMap;

/// Files in memory. A read fails only where the path is absent or its file too long.
#[derive(Drop)]
pub struct MemoryTree {
    /// The bytes of each file, by its path.
    pub files: BTreeMap<Name, Vec<u8>>,
    /// How many faults it has met.
    pub faults: FaultCount,
}

impl MemoryTree {
    /// The tree of these files.
    pub fn new(files: BTreeMap<Name, Vec<u8>>) -> MemoryTree
        ensures files { result.files ≡ files }
        ensures faults { result.faults ≡ 0 }
    {
        MemoryTree {
            files,
            faults: FaultCount::new(),
        }
    }
}

impl Tree for MemoryTree {
    ghost files = { λ tree. Some (files_of tree.files) };

    ghost faults = { λ tree. tree.faults };

    ghost asks = { λ old _ new. new.files ≡ old.files };

    fn read_file(&mut self, alloc: Global, path: &Name) -> Result<Vec<u8>, ReadFileError>
        ensures absent_or_long { IsErrOf result ReadFileError.Failed
            → IfSome (files_of self.old.files path.now) (λ bytes. max_file_len < length bytes) }
        ensures one_fault { IsErrOf result ReadFileError.Failed
            → self.new.faults ≡ next_count self.old.faults }

        ensures bytes { IfOk result (λ v. files_of self.old.files path.now ≡ Some v.items) }
        ensures limit { IfOk result (λ v. vec_len v ≤ max_file_len) }
        ensures asks { self.new.files ≡ self.old.files }
        ensures files { Some (files_of self.new.files) ≡ Some (files_of self.old.files) }
        ensures never_falls { self.old.faults ≤ self.new.faults }
        ensures no_fault { result ≢ Err ReadFileError.Failed → self.new.faults ≡ self.old.faults }
        ensures fault { IsErrOf result ReadFileError.Failed
            → HasFault self.old.faults self.new.faults }
    {
        match self.files.get(path) {
            Some(bytes) if bytes.len() <= MAX_FILE_LEN => Ok(Vec::from_slice(alloc, bytes)?),
            _ => Err(ReadFileError::from(self.faults.raise())),
        }
    }
}
