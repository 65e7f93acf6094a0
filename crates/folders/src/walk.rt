//! Going through a folder of the system and the folders below it.

ghost use Rattle.std.specs.Prelude.{IfOk};
ghost use Rattle.folders.specs.Below.{found_of, IsRising};

use crate::below::{Below, PassedBy};
use crate::listing::list;
use crate::names::{front_of, joined};
use crate::unread::Unread;
use std::alloc::{AllocError, Global};
use std::fs;
use std::io::ErrorKind;
use std::rt::Files;

/// How many folders are gone through at most, so that a walk ends whatever the system tells, as
/// where a folder is mounted below itself. No project has as many.
const MAX_FOLDERS: u32 = 65_536;

/// What is below the folder at a path, in order.
pub fn walk<R: Files + AllocGlobal + Clone + Drop>(
    rt: &R,
    alloc: Global,
    path: &str,
) -> Result<Below, Unread>
    ensures { IfOk result (λ below. IsRising (found_of below).files) }
{
    let mut found = Below::new(alloc);
    go_through(rt, alloc, path, &mut found)?;
    found.put_in_order();
    Ok(found)
}

/// Adds what is below the folder at a path. Fails where that folder can't be opened.
fn go_through<R: Files + AllocGlobal + Clone + Drop>(
    rt: &R,
    alloc: Global,
    path: &str,
    found: &mut Below,
) -> Result<(), Unread> {
    let here = if path.is_empty() { "." } else { path };
    let entries = fs::read_dir(rt, here)?;
    let mut later = Vec::new(alloc);
    list(rt, alloc, entries, String::new(alloc), found, &mut later)?;
    let front = front_of(alloc, path)?;
    for _ in 1..MAX_FOLDERS {
        let Some(folder) = later.pop() else {
            return Ok(());
        };
        visit(rt, alloc, front.as_str(), folder, found, &mut later)?;
    }
    for folder in later {
        found.pass_by(PassedBy::Folder { folder })?;
    }
    Ok(())
}

/// Adds what is in a folder, whose path is its name behind the front. The folders in it come later.
fn visit<R: Files + AllocGlobal + Clone + Drop>(
    rt: &R,
    alloc: Global,
    front: &str,
    folder: String,
    found: &mut Below,
    later: &mut Vec<String>,
) -> Result<(), AllocError> {
    let path = joined(alloc, front, folder.as_str())?;
    match fs::read_dir(rt, path.as_str()) {
        Ok(entries) => list(rt, alloc, entries, folder, found, later),
        Err(error) if error.kind() == ErrorKind::OutOfMemory => Err(AllocError),
        Err(_) => found.pass_by(PassedBy::Folder { folder }),
    }
}
