//! What is below a folder.

ghost use Rattle.std.specs.Prelude.{◌≡◌, []};

use std::alloc::{AllocError, Global};

/// What was passed by below a folder. Folders go by their names below the folder asked, which has
/// the empty name itself.
#[derive(Debug, PartialEq, Eq, PartialOrd, Ord, Drop)]
pub enum PassedBy {
    /// Names of files and folders that are no UTF-8.
    Names {
        /// The folder that they are in.
        folder: String,
        /// How many they are.
        count: u32,
    },
    /// A folder that couldn't be read, or not to its end.
    Folder {
        /// Its name.
        folder: String,
    },
}

impl Clone for PassedBy {
    ghost use Rattle.folders.specs.Below.{passed_of};

    ghost is_clone = { λ own copy. passed_of copy ≡ passed_of own };

    fn clone(&self) -> Result<PassedBy, AllocError> {
        match self {
            PassedBy::Names { folder, count } => Ok(PassedBy::Names {
                folder: folder.clone()?,
                count: *count,
            }),
            PassedBy::Folder { folder } => Ok(PassedBy::Folder {
                folder: folder.clone()?,
            }),
        }
    }
}

/// What is below a folder.
#[derive(Debug, Drop)]
pub struct Below {
    /// The names of its files and of those in the folders below it, parts joined by `/`. They rise
    /// strictly by their bytes where a `Folder` gives them.
    pub files: Vec<String>,
    /// What was passed by.
    pub passed: Vec<PassedBy>,
}

impl Below {
    ghost use Rattle.folders.specs.Below.{found_of, IsRising};

    /// Nothing.
    pub(crate) fn new(alloc: Global) -> Below
        ensures files { result.files.items ≡ [] }
        ensures passed { result.passed.items ≡ [] }
    {
        Below {
            files: Vec::new(alloc),
            passed: Vec::new(alloc),
        }
    }

    /// Adds what was passed by.
    pub(crate) fn pass_by(&mut self, what: PassedBy) -> Result<(), AllocError>
        ensures { self.new.files ≡ self.old.files }
    {
        self.passed.push(what)?;
        Ok(())
    }

    /// Puts files and what was passed by in order. A name that stands twice is kept once.
    pub(crate) fn put_in_order(&mut self)
        ensures { IsRising (found_of self.new).files }
    {
        self.files.sort_unstable();
        self.files.dedup();
        self.passed.sort_unstable();
    }
}
