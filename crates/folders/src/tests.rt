//! What no clause says: that the calls succeed, and that threads may share a folder.

use crate::{DiskFolder, Folder, MemoryFolder, PassedBy};
use std::alloc::{AllocError, Global};
use std::collections::BTreeMap;
use std::test::Fail;

/// Two folders of which one has the name that the other's begins with, and a file beside them.
fn sample(alloc: Global) -> Result<MemoryFolder, AllocError> {
    let mut files = BTreeMap::new(alloc);
    let x = Vec::from_slice(alloc, b"class X {}")?;
    drop(files.insert(String::from_str(alloc, "ab/Y.java")?, Some(Vec::new(alloc)))?);
    drop(files.insert(String::from_str(alloc, "a/c")?, None)?);
    drop(files.insert(String::from_str(alloc, "a/b/X.java")?, Some(x))?);
    drop(files.insert(String::from_str(alloc, "Z.java")?, Some(Vec::new(alloc)))?);
    let mut passed = Vec::new(alloc);
    let folder = String::from_str(alloc, "d")?;
    passed.push(PassedBy::Names { folder, count: 2 })?;
    Ok(MemoryFolder { files, passed })
}

/// Adds a line of what is below a folder.
fn add_below<F: Folder + Sync>(
    alloc: Global,
    folder: &F,
    name: &str,
    out: &mut String,
) -> Result<(), AllocError> {
    match folder.below(alloc, name) {
        Ok(below) => {
            for file in &below.files {
                write!(out, "{} ", file.as_str())?;
            }
            writeln!(out, "{:?}", below.passed)
        }
        Err(error) => writeln!(out, "{error:?}"),
    }
}

/// Adds a line of what a file has.
fn add_bytes<F: Folder + Sync>(
    alloc: Global,
    folder: &F,
    name: &str,
    out: &mut String,
) -> Result<(), AllocError> {
    match folder.read(alloc, name) {
        Ok(bytes) => writeln!(out, "{}", bytes.len()),
        Err(error) => writeln!(out, "{error:?}"),
    }
}

/// What a folder in memory answers.
fn answers(alloc: Global) -> Result<String, AllocError> {
    let folder = sample(alloc)?;
    let mut out = String::new(alloc);
    for name in ["", "a", "ab", "a/b", "b", "a/c"] {
        add_below(alloc, &folder, name, &mut out)?;
    }
    for name in ["a/b/X.java", "a/c", "c"] {
        add_bytes(alloc, &folder, name, &mut out)?;
    }
    Ok(out)
}

const ANSWERS: &str = "\
Z.java a/b/X.java a/c ab/Y.java [Names { folder: \"d\", count: 2 }]
b/X.java c [Names { folder: \"d\", count: 2 }]
Y.java [Names { folder: \"d\", count: 2 }]
X.java [Names { folder: \"d\", count: 2 }]
Failed
Failed
10
Failed
Failed
";

#[test]
fn a_folder_in_memory_lists_and_gives(rt: HostRuntime) -> Result<(), Fail> {
    assert_eq!(rt; answers(rt.alloc())?.as_str(), ANSWERS);
    Ok(())
}

#[test]
fn what_the_system_lacks_is_unread(rt: HostRuntime) -> Result<(), Fail> {
    let folder = DiskFolder { rt: &rt };
    let mut out = String::new(rt.alloc());
    add_below(rt.alloc(), &folder, "no such", &mut out)?;
    add_bytes(rt.alloc(), &folder, "no such", &mut out)?;
    assert_eq!(rt; out.as_str(), "Failed\nFailed\n");
    Ok(())
}
