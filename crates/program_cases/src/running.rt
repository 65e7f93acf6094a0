//! One run of the program, over the current folder.
use crate::case::Case;
use ide_io::{BytesSink, BytesSource, Failing, FaultPlan, FolderTree};
use ide_script::run_main;
use std::alloc::{AllocError, Global};
use std::rt::Files;
use std::sync::Wait;
use std::thread::Threads;

/// How many bytes the source gives at a time where it goes in pieces.
const PIECE_READ: usize = 4;

/// How many bytes the sink takes at a time there.
const PIECE_WRITTEN: usize = 5;

/// How a run ended.
#[derive(Drop)]
pub struct Ended {
    /// The status that it ended with.
    pub status: u8,
    /// What it wrote to standard error.
    pub error: BytesSink,
    /// What it wrote.
    pub written: BytesSink,
}

/// Runs the program on a case. It may block.
pub fn run<R: AllocGlobal + Files + Threads + Wait + Sync>(
    rt: &R,
    case: &Case,
) -> Result<Ended, AllocError> {
    let alloc = rt.alloc();
    let mut source = source_of(alloc, case)?;
    let mut tree = Failing {
        inner: FolderTree::new(rt),
        plan: failing(alloc, case.load)?,
    };
    let mut sink = sink_of(alloc, case)?;
    let mut error = BytesSink::with_room(alloc, 100)?;
    let status = run_main(
        rt,
        alloc,
        copied(alloc, &case.words)?,
        &mut source,
        &mut tree,
        &mut sink,
        &mut error,
    );
    Ok(Ended {
        status,
        error,
        written: sink.inner,
    })
}

/// The script's bytes, whole or in pieces, with one call that fails.
fn source_of<'a>(alloc: Global, case: &'a Case) -> Result<Failing<BytesSource<'a>>, AllocError> {
    let bytes = BytesSource::new(&case.script);
    Ok(Failing {
        inner: if case.in_pieces {
            bytes.in_pieces(PIECE_READ)
        } else {
            bytes
        },
        plan: failing(alloc, case.read)?,
    })
}

/// A sink with the room of the case, whole or in pieces, with one call that fails.
fn sink_of(alloc: Global, case: &Case) -> Result<Failing<BytesSink>, AllocError> {
    let bytes = BytesSink::with_room(alloc, case.room)?;
    Ok(Failing {
        inner: if case.in_pieces {
            bytes.in_pieces(PIECE_WRITTEN)
        } else {
            bytes
        },
        plan: failing(alloc, case.write)?,
    })
}

/// A plan in which one call fails.
fn failing(alloc: Global, call: u64) -> Result<FaultPlan, AllocError> {
    Ok(FaultPlan::new(vec![in alloc; call]?))
}

/// The words again.
fn copied(alloc: Global, words: &[String]) -> Result<Vec<String>, AllocError> {
    let mut copies = Vec::new(alloc);
    for word in words {
        copies.push(String::from_str(alloc, word)?)?;
    }
    Ok(copies)
}
