//! Folders whose files are listed and read through a shared reference, so that several threads can
//! share one.
//!
//! A folder in memory tells all that it holds, so that contracts speak of it; the system's folders
//! tell nothing.
#![tactic(auto)]

mod below;
mod disk_folder;
mod folder;
mod listing;
mod memory_folder;
mod names;
mod reading;
#[cfg(test)]
mod tests;
mod unread;
mod walk;

pub use crate::below::{Below, PassedBy};
pub use crate::disk_folder::DiskFolder;
pub use crate::folder::{Folder, MAX_FILE_LEN};
pub use crate::memory_folder::MemoryFolder;
pub use crate::unread::Unread;
