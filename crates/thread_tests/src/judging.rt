//! Judging a run by its transcript, over files in memory.
use crate::damaged::damaged;
use crate::running::text_of;
use ide_io::MemoryTree;
use ide_text::Name;
use script_lang::Script;
use std::alloc::{AllocError, Global};
use std::collections::BTreeMap;
use transcript_check::{Verdict, verdict};
use transcripts::{Played, transcript};

/// Whether the transcript of a run is one of the script with so many workers, 8 at most, over a tree, and damaged it is none.
pub fn is_right(
    alloc: Global,
    script: &Script,
    workers: u32,
    tree: &mut MemoryTree,
    played: &Played,
) -> Result<bool, AllocError> {
    let printed = text_of(alloc, &transcript(alloc, played)?)?;
    Ok(
        is_good(alloc, script, workers, tree, printed.as_bytes())?
            && are_bad(alloc, script, workers, tree, &damaged(alloc, &printed)?)?,
    )
}

/// Whether none of these is a transcript of the script.
fn are_bad(
    alloc: Global,
    script: &Script,
    workers: u32,
    tree: &mut MemoryTree,
    forms: &[Vec<u8>],
) -> Result<bool, AllocError> {
    for form in forms {
        if is_good(alloc, script, workers, tree, form)? {
            return Ok(false);
        }
    }
    Ok(true)
}

/// Whether bytes are a transcript of the script with so many workers, 8 at most, over a tree. A load that fails counts as
/// running out of memory.
pub fn is_good(
    alloc: Global,
    script: &Script,
    workers: u32,
    tree: &mut MemoryTree,
    bytes: &[u8],
) -> Result<bool, AllocError> {
    match verdict(alloc, script, workers.min(8), tree, bytes) {
        Ok(verdict) => Ok(verdict == Verdict::Good),
        Err(_) => Err(AllocError),
    }
}

/// A tree without files.
pub fn no_files(alloc: Global) -> MemoryTree {
    MemoryTree::new(BTreeMap::new(alloc))
}

/// The files that scripts load: a text with CR LF at its end, bytes that are no text from the fourth on, and a text that is
/// too long by one character.
pub fn loaded_files(alloc: Global) -> Result<MemoryTree, AllocError> {
    let mut files = BTreeMap::new(alloc);
    files.insert(
        Name::of(alloc, "L.java")?,
        Vec::from_slice(alloc, b"class L extends A { void m() {} }\r\n")?,
    )?;
    files.insert(
        Name::of(alloc, "M.java")?,
        Vec::from_slice(alloc, b"abc\xff")?,
    )?;
    files.insert(Name::of(alloc, "N.java")?, vec![in alloc; b'x'; 1_048_577]?)?;
    Ok(MemoryTree::new(files))
}
