//! The lanes of a script and the texts of their records.
ghost use Rattle.std.specs.Prelude.{◌≡◌, ◌≤◌, IfOk, length, min, take};
ghost use Rattle.transcript_check.specs.Phase.{after_lanes, cursors_of};

use crate::block::Block;
use crate::cursor::Cursor;
use script_lang::{Line, Script};
use std::alloc::{AllocError, Global};

/// The lanes of a script with their lines and the texts of their records.
pub(crate) fn cursors_of<'a>(
    alloc: Global,
    script: &'a Script,
    records: &'a [Block<'a>],
) -> Result<Vec<Cursor<'a>>, AllocError>
    ensures { IfOk result (λ cursors. cursors.items ≡ cursors_of 1 script.now.lanes records.now) }
{
    let mut cursors = Vec::new(alloc);
    let mut at = 0;
    for place in 0..script.lanes() {
        let lines = script.lane(place);
        let (_, left) = records.split_at(at);
        let count = told_of(lines, left);
        let (texts, _) = left.split_at(count);
        cursors.push(Cursor {
            seat: place as u32 + 1,
            lines,
            texts,
            settling: false,
        })?;
        at += count;
    }
    Ok(cursors)
}

/// The texts of records behind those of the first so many lanes.
pub(crate) fn after_lanes<'a>(
    script: &Script,
    count: usize,
    records: &'a [Block<'a>],
) -> &'a [Block<'a>]
    requires { count ≤ length script.now.lanes }
    ensures { result.now ≡ after_lanes (take count script.now.lanes) records.now }
{
    let mut at = 0;
    for place in 0..count {
        let (_, left) = records.split_at(at);
        at += told_of(script.lane(place), left);
    }
    let (_, left) = records.split_at(at);
    left
}

/// How many of some texts are those of the records of a lane: one for each line, where there are so many.
fn told_of(lines: &[Line], texts: &[Block<'_>]) -> usize
    ensures { result ≡ min (length lines.now) (length texts.now) }
{
    lines.len().min(texts.len())
}
