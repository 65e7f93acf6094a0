//! Trees: each line is the path of a file that is read, of which it is told how long it is, or the fault; `faults` tells how many
//! faults were met. The tree in memory has a small file, one that is as long as may be (`full`) and one that is a byte longer (`long`),
//! and its fifth call fails; the other is the folder in which the program runs.
use crate::tell::{Tell, tell_all};
use ide_io::{Failing, FaultPlan, FolderTree, MAX_FILE_LEN, MemoryTree, ReadFileError, Tree};
use ide_text::Name;
use std::alloc::{AllocError, Global};
use std::collections::BTreeMap;
use std::rt::Files;

/// Reads files of the tree in memory.
pub fn play_in_memory(alloc: Global, lines: &str, out: &mut String) -> Result<(), AllocError> {
    let mut tree = Failing {
        inner: memory_tree(alloc)?,
        plan: FaultPlan::new(vec![in alloc; 5]?),
    };
    tell_all(alloc, &mut tree, lines, out)
}

/// Reads files of the folder.
pub fn play_folder<R: Files + AllocGlobal>(
    rt: &R,
    lines: &str,
    out: &mut String,
) -> Result<(), AllocError> {
    tell_all(rt.alloc(), &mut FolderTree::new(rt), lines, out)
}

impl Tell for Failing<MemoryTree> {
    fn tell(&mut self, alloc: Global, line: &str, out: &mut String) -> Result<(), AllocError> {
        match line {
            "faults" => {
                let (inner, own) = (self.inner.faults.get(), self.plan.faults());
                write!(out, " {inner} {own}")
            }
            path => tell_file(alloc, self, path, out),
        }
    }
}

impl<R: Files> Tell for FolderTree<'_, R> {
    fn tell(&mut self, alloc: Global, line: &str, out: &mut String) -> Result<(), AllocError> {
        match line {
            "faults" => write!(out, " {}", self.faults.get()),
            path => tell_file(alloc, self, path, out),
        }
    }
}

/// A small file, one that is as long as may be, and one that is a byte longer.
static FILES: [(&str, usize); 3] = [
    ("small", 3),
    ("full", MAX_FILE_LEN),
    ("long", MAX_FILE_LEN + 1),
];

/// Those files.
fn memory_tree(alloc: Global) -> Result<MemoryTree, AllocError> {
    let mut files = BTreeMap::new(alloc);
    for (path, len) in &FILES {
        files.insert(Name::of(alloc, path)?, vec![in alloc; b'a'; *len]?)?;
    }
    Ok(MemoryTree::new(files))
}

/// Tells how long a file is, or the fault.
fn tell_file<T: Tree>(
    alloc: Global,
    tree: &mut T,
    path: &str,
    out: &mut String,
) -> Result<(), AllocError> {
    match tree.read_file(alloc, &Name::of(alloc, path)?) {
        Ok(bytes) => write!(out, " {} bytes", bytes.len()),
        Err(ReadFileError::OutOfMemory) => Err(AllocError),
        Err(error) => write!(out, " {error:?}"),
    }
}
