//! A folder in memory.

ghost use Rattle.std.specs.Prelude.{◌≡◌, Some, IfOk, map, string_bytes};
ghost use Rattle.std.specs.BTreeMap.{keys};
ghost use Rattle.folders.specs.Names.{names_below};
ghost use Rattle.folders.specs.Below.{IsRising};

use crate::below::{Below, PassedBy};
use crate::folder::{Folder, MAX_FILE_LEN};
use crate::names::{behind, front_of};
use crate::unread::Unread;
use std::alloc::{AllocError, Global};
use std::collections::BTreeMap;

/// Files in memory. It tells everything.
#[derive(Drop)]
pub struct MemoryFolder {
    /// The bytes of each file, by its name; `None` for a file that can't be read.
    pub files: BTreeMap<String, Option<Vec<u8>>>,
    /// What is passed by below each folder that is asked.
    pub passed: Vec<PassedBy>,
}

impl Folder for MemoryFolder {
    ghost use Rattle.folders.specs.Memory.{told_of};

    ghost told = { λ folder. Some (told_of folder) };

    fn below(&self, alloc: Global, folder: &str) -> Result<Below, Unread> {
        let files = names_below(alloc, &self.files, folder)?;
        if files.is_empty() && !folder.is_empty() {
            return Err(Unread::Failed);
        }
        let passed = self.passed.clone()?;
        Ok(Below { files, passed })
    }

    fn read(&self, alloc: Global, file: &str) -> Result<Vec<u8>, Unread> {
        match self.files.get(file) {
            Some(Some(bytes)) if bytes.len() <= MAX_FILE_LEN => Ok(Vec::from_slice(alloc, bytes)?),
            _ => Err(Unread::Failed),
        }
    }
}

/// The names below a folder, of the files in a map.
fn names_below(
    alloc: Global,
    files: &BTreeMap<String, Option<Vec<u8>>>,
    folder: &str,
) -> Result<Vec<String>, AllocError>
    ensures names { IfOk result (λ v. map string_bytes v.items
        ≡ names_below folder.now (map string_bytes (keys files.now))) }
    ensures rising { IfOk result (λ v. IsRising (map string_bytes v.items)) }
{
    let front = front_of(alloc, folder)?;
    let mut names = Vec::new(alloc);
    for file in files.keys() {
        if let Some(name) = behind(front.as_str(), file.as_str()) {
            names.push(String::from_str(alloc, name)?)?;
        }
    }
    Ok(names)
}
