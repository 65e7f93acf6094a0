//! Reading a source to its end.

ghost use Rattle.std.specs.Prelude.{◌≡◌, ◌≢◌, ℕ, ◌+◌, ◌≤◌, ◌<◌, List, length, vec_len, IfOk, OnErr, IfSome, IsErrOf};
ghost use Rattle.ide_io.specs.Fault.{HasFault};
ghost use Rattle.ide_io.specs.Known.{ReadsToEnd, TakesAtMost, TakesCount};
ghost use Rattle.ide_io.specs.declared.reading.ReadAllError.TheVariants as variant;

use crate::failed::Failed;
use crate::source::Source;
use std::alloc::{AllocError, Global};

/// Why a source wasn't read to its end.
#[derive(Clone, Copy, Debug, PartialEq, Eq)]
pub enum ReadAllError {
    /// The source met a fault.
    Failed,
    /// The source gave more bytes than the limit.
    TooLong,
    /// Memory ran out.
    OutOfMemory,
}

impl From<Failed> for ReadAllError {
    ghost from_gives = { λ _ e. e ≡ variant.Failed };

    fn from(_failed: Failed) -> ReadAllError {
        ReadAllError::Failed
    }
}

impl From<AllocError> for ReadAllError {
    ghost from_gives = { λ _ e. e ≡ variant.OutOfMemory };

    fn from(_error: AllocError) -> ReadAllError {
        ReadAllError::OutOfMemory
    }
}

// How many bytes are asked of the source at once.
const CHUNK_LEN: usize = 8192;

/// All bytes that the source has left, if they are at most `limit`. No more than one byte past the limit is read, and
/// nothing after a read that told the end.
///
/// Costs one read for each chunk that the source gives. With an error, the bytes that were read
/// are lost.
pub fn read_all<S: Source>(
    alloc: Global,
    source: &mut S,
    limit: usize,
) -> Result<Vec<u8>, ReadAllError>
    // All that was left, and the end after it, which is met once.
    ensures whole { IfOk result (λ v. IfSome (S.left source.old) (λ all. v.items ≡ all)) }
    ensures to_end { IfOk result (λ v. ReadsToEnd S.left S.ends source.old source.new v.items) }
    ensures limit { IfOk result (λ v. vec_len v ≤ limit) }
    ensures no_end { OnErr result (S.ends source.new ≡ S.ends source.old) }

    // The byte past the limit was read, and none after it.
    ensures too_long { IsErrOf result ReadAllError.TooLong
        → IfSome (S.left source.old) (λ all. limit < length all) }
    ensures over { IsErrOf result ReadAllError.TooLong
        → TakesCount (limit + 1) (S.left source.old) (S.left source.new) }

    // With any other answer no byte past the limit was read.
    ensures within { result ≢ Err ReadAllError.TooLong
        → TakesAtMost limit (S.left source.old) (S.left source.new) }

    ensures fault { IsErrOf result ReadAllError.Failed
        → HasFault (S.faults source.old) (S.faults source.new) }
    ensures no_fault { result ≢ Err ReadAllError.Failed
        → S.faults source.new ≡ S.faults source.old }
    ensures never_falls { S.faults source.old ≤ S.faults source.new }
{
    let mut bytes = Vec::new(alloc);
    let mut chunk = [0u8; CHUNK_LEN];
    'reads: loop {
        let room = (limit - bytes.len()).saturating_add(1).min(CHUNK_LEN);
        let piece = &mut chunk[..room];
        let count = source.read(piece)?;
        if count == 0 {
            return Ok(bytes);
        }
        if limit - bytes.len() < count {
            return Err(ReadAllError::TooLong);
        }
        bytes.extend_from_slice(&piece[..count])?;
    }
}
