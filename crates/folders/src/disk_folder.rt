//! The folders of the system.

ghost use Rattle.std.specs.Prelude.{None};

use crate::below::Below;
use crate::folder::Folder;
use crate::reading::read_path;
use crate::unread::Unread;
use crate::walk::walk;
use std::alloc::Global;
use std::rt::Files;

/// The files that the system finds from the current folder. It tells nothing of them.
///
/// A name is given to the system as it is: it may lead out of the current folder.
#[derive(Drop)]
pub struct DiskFolder<'a, R> {
    /// What the system is asked by.
    pub rt: &'a R,
}

impl<R: Files> Folder for DiskFolder<'_, R> {
    ghost told = { λ _. None };

    /// Files and folders whose names begin with a dot are passed by, links to folders aren't
    /// followed, and what is neither a file nor a folder is none of its files.
    fn below(&self, alloc: Global, folder: &str) -> Result<Below, Unread> {
        walk(&(self.rt, alloc), alloc, folder)
    }

    fn read(&self, alloc: Global, file: &str) -> Result<Vec<u8>, Unread> {
        read_path(self.rt, alloc, file)
    }
}
