//! Names of files and folders below a folder.

ghost use Rattle.std.specs.Prelude.{◌≡◌, ◌++◌, IfOk, string_bytes, option_copied};
ghost use Rattle.folders.specs.Names.{front_of, behind};

use std::alloc::{AllocError, Global};

/// What the names of all that is below a folder begin with.
pub fn front_of(alloc: Global, folder: &str) -> Result<String, AllocError>
    ensures { IfOk result (λ t. string_bytes t ≡ front_of folder.now) }
{
    let mut front = String::from_str(alloc, folder)?;
    if !folder.is_empty() {
        front.push('/')?;
    }
    Ok(front)
}

/// A name behind what it begins with.
pub fn joined(alloc: Global, front: &str, name: &str) -> Result<String, AllocError>
    ensures { IfOk result (λ t. string_bytes t ≡ front.now ++ name.now) }
{
    let mut all = String::from_str(alloc, front)?;
    all.push_str(name)?;
    Ok(all)
}

/// What stands in a name behind what it begins with.
pub fn behind<'a>(front: &str, name: &'a str) -> Option<&'a str>
    ensures { option_copied result ≡ behind front.now name.now }
{
    name.strip_prefix(front)
}
