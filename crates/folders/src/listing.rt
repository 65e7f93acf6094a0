//! The entries of one folder of the system.

use crate::below::{Below, PassedBy};
use crate::names::{front_of, joined};
use std::alloc::{AllocError, Global};
use std::fs::{DirEntry, ReadDir};
use std::io::ErrorKind;
use std::rt::Files;
use std::{fs, io};

/// How many files are kept at most, so that their names take no more than some hundred megabytes
/// whatever the system tells.
const MAX_FILES: usize = 1_048_576;

/// What an entry of a folder is to a walk.
#[derive(Clone, Copy)]
enum Kind {
    File,
    Folder,
    Other,
}

/// Adds the files among the entries of a folder, and to `later` the folders. What begins with a dot
/// is passed by, and so is what is neither.
pub fn list<R: Files + AllocGlobal + Clone + Drop>(
    rt: &R,
    alloc: Global,
    entries: ReadDir<R, Global>,
    folder: String,
    found: &mut Below,
    later: &mut Vec<String>,
) -> Result<(), AllocError> {
    let front = front_of(alloc, folder.as_str())?;
    let mut count = 0u32;
    let mut is_whole = true;
    for entry in entries {
        match entry {
            Ok(entry) => is_whole &= add(rt, alloc, front.as_str(), &entry, found, later)?,
            Err(error) => match error.kind() {
                ErrorKind::InvalidFilename => count = count.saturating_add(1),
                ErrorKind::OutOfMemory => return Err(AllocError),
                _ => is_whole = false,
            },
        }
    }
    if count > 0 {
        let folder = folder.clone()?;
        found.pass_by(PassedBy::Names { folder, count })?;
    }
    if !is_whole {
        found.pass_by(PassedBy::Folder { folder })?;
    }
    Ok(())
}

/// Adds an entry to the files or to the folders, and says whether it could: not where the system
/// doesn't tell what it is, or where there are too many files.
fn add<R: Files>(
    rt: &R,
    alloc: Global,
    front: &str,
    entry: &DirEntry<R, Global>,
    found: &mut Below,
    later: &mut Vec<String>,
) -> Result<bool, AllocError> {
    let name = entry.file_name();
    if name.starts_with('.') {
        return Ok(true);
    }
    if found.files.len() >= MAX_FILES {
        return Ok(false);
    }
    match kind_of(rt, entry) {
        Ok(Kind::File) => found.files.push(joined(alloc, front, name)?)?,
        Ok(Kind::Folder) => later.push(joined(alloc, front, name)?)?,
        Ok(Kind::Other) => {}
        // It has gone meanwhile.
        Err(error) => return Ok(error.kind() == ErrorKind::NotFound),
    }
    Ok(true)
}

/// What an entry is. A link to a file counts as the file, and one to a folder as nothing.
fn kind_of<R: Files>(rt: &R, entry: &DirEntry<R, Global>) -> io::Result<Kind> {
    let own = entry.file_type()?;
    if own.is_dir() {
        Ok(Kind::Folder)
    } else if own.is_file() || own.is_symlink() && leads_to_file(rt, entry) {
        Ok(Kind::File)
    } else {
        Ok(Kind::Other)
    }
}

/// Whether a link leads to a file.
fn leads_to_file<R: Files>(rt: &R, link: &DirEntry<R, Global>) -> bool {
    match fs::metadata(rt, link.path()) {
        Ok(about) => about.is_file(),
        Err(_) => false,
    }
}
