//! The program, run on words and a script over a tree of three files.
use crate::running::text_of;
use ide_io::{BytesSink, BytesSource, MemoryTree};
use ide_script::run_main;
use ide_text::Name;
use std::alloc::{AllocError, Global};
use std::collections::BTreeMap;
use std::sync::Wait;
use std::thread::Threads;

/// What the program writes over three files where it ends with 0, and else what it writes to standard error. It may block.
pub fn written<R: Threads + Wait + Sync + AllocGlobal>(
    rt: &R,
    words: &[&str],
    script: &str,
) -> Result<String, AllocError> {
    let mut tree = three_files(rt.alloc())?;
    written_over(rt, words, script, &mut tree)
}

/// What the program writes to standard error of a check of so many bytes, which are no transcript. It may block.
pub fn checked_long<R: Threads + Wait + Sync + AllocGlobal>(
    rt: &R,
    count: usize,
) -> Result<String, AllocError> {
    let mut tree = long_file(rt.alloc(), count)?;
    written_over(rt, &["ide", "check", "long.out"], "settle\n", &mut tree)
}

/// What the program writes over a tree, as said above. It may block.
fn written_over<R: Threads + Wait + Sync + AllocGlobal>(
    rt: &R,
    words: &[&str],
    script: &str,
    tree: &mut MemoryTree,
) -> Result<String, AllocError> {
    let mut sink = BytesSink::with_room(rt.alloc(), 4_000)?;
    let mut error = BytesSink::with_room(rt.alloc(), 100)?;
    let number = run_over(rt, words, script, tree, &mut sink, &mut error)?;
    let told = if number == 0 { &sink } else { &error };
    text_of(rt.alloc(), told.bytes())
}

/// Runs the program over a tree. The number with which it ends. It may block.
fn run_over<R: Threads + Wait + Sync + AllocGlobal>(
    rt: &R,
    words: &[&str],
    script: &str,
    tree: &mut MemoryTree,
    sink: &mut BytesSink,
    error: &mut BytesSink,
) -> Result<u8, AllocError> {
    let words = owned(rt.alloc(), words)?;
    let mut source = BytesSource::new(script.as_bytes());
    Ok(run_main(rt, rt.alloc(), words, &mut source, tree, sink, error))
}

/// The store of the one Java text `class A {}` and a line feed.
static STORE: &[u8] =
    b"\x01\x01\x01\x01\x01\x01\0\0\0\x01\x01\0\0\0\x0bclass A {}\n\0\0\0\x14\x01\0\0\0\x01\x01\0\0\0\0\x06\0\0\0\x01A\0\0\0\0\0\0\0\x01\0\0\0\x01A\x01";

/// A file that is a text, with CR LF at its end, one whose bytes are none, and the store of the first.
pub fn three_files(alloc: Global) -> Result<MemoryTree, AllocError> {
    let mut files = BTreeMap::new(alloc);
    files.insert(Name::of(alloc, "A.store")?, Vec::from_slice(alloc, STORE)?)?;
    files.insert(
        Name::of(alloc, "A.java")?,
        Vec::from_slice(alloc, b"class A {}\r\n")?,
    )?;
    files.insert(Name::of(alloc, "B.java")?, Vec::from_slice(alloc, b"\xff")?)?;
    Ok(MemoryTree::new(files))
}

/// A file of so many bytes.
fn long_file(alloc: Global, count: usize) -> Result<MemoryTree, AllocError> {
    let mut files = BTreeMap::new(alloc);
    files.insert(Name::of(alloc, "long.out")?, vec![in alloc; b'x'; count]?)?;
    Ok(MemoryTree::new(files))
}

/// The words, each as a `String`.
fn owned(alloc: Global, words: &[&str]) -> Result<Vec<String>, AllocError> {
    let mut strings = Vec::new(alloc);
    for word in words {
        strings.push(String::from_str(alloc, word)?)?;
    }
    Ok(strings)
}
