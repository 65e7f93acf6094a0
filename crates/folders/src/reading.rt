//! Reading a file of the system.

ghost use Rattle.std.specs.Prelude.{◌≤◌, IfOk, vec_len};
ghost use Rattle.folders.specs.Told.{max_file_len};

use crate::folder::MAX_FILE_LEN;
use crate::unread::Unread;
use std::alloc::Global;
use std::fs::File;
use std::io::Read;
use std::rt::Files;
use std::{fs, io};

/// The bytes of the file at a path, if it is a plain file and they are few enough.
pub fn read_path<R: Files>(rt: &R, alloc: Global, path: &str) -> Result<Vec<u8>, Unread>
    ensures { IfOk result (λ v. vec_len v ≤ max_file_len) }
{
    if !is_plain(rt, path)? {
        return Err(Unread::Failed);
    }
    let bytes = read_some(rt, alloc, path)?;
    if bytes.len() > MAX_FILE_LEN {
        return Err(Unread::Failed);
    }
    Ok(bytes)
}

/// Whether it is a plain file, not longer than a file may be. Another one isn't opened: a pipe
/// would wait for a writer.
fn is_plain<R: Files>(rt: &R, path: &str) -> io::Result<bool> {
    let about = fs::metadata(rt, path)?;
    Ok(about.is_file() && about.len() <= MAX_FILE_LEN as u64)
}

/// The bytes of a file, but no more than one past what a file may have: it may have grown, or have
/// told no length.
fn read_some<R: Files>(rt: &R, alloc: Global, path: &str) -> io::Result<Vec<u8>> {
    let mut bytes = Vec::new(alloc);
    let file = File::open(rt, path)?;
    file.take(MAX_FILE_LEN as u64 + 1).read_to_end(&mut bytes)?;
    Ok(bytes)
}
