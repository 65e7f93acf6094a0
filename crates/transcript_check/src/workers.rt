//! Workers beside lanes: what each takes in.
ghost use Rattle.std.specs.Prelude.{IfOk};
ghost use Rattle.transcript_check.specs.Reading.{file_in};
ghost use Rattle.transcript_check.specs.Sides.{HasWorkerGone, IsNamed};

use crate::block::Block;
use crate::cursor::Cursor;
use crate::entering::take_so;
use crate::intakes::Intakes;
use crate::numbers::file_in;
use crate::round::is_busy;
use history_laws::laws::ids_are_places;
use replay::Replay;
use std::alloc::{AllocError, Global};

/// The worker with this seat takes in the file that a text names, at its present stamp, as the entry with that text: where
/// no section is in the middle of a settle and the worker hasn't done so before. It costs the text of the file.
pub(crate) fn worker_goes(
    alloc: Global,
    replay: &mut Replay,
    taken: &mut Intakes,
    seat: u32,
    cursors: &[Cursor<'_>],
    text: &Block<'_>,
) -> Result<bool, AllocError>
    ensures { IfOk result
        (HasWorkerGone replay.old replay.new taken.old taken.new seat
        (file_in text.now) cursors.now text.now) }
{
    if is_busy(cursors) {
        return Ok(false);
    }
    let Some((file, stamp)) = named_file(replay, text) else {
        return Ok(false);
    };
    if !taken.add(seat, file, stamp)? {
        return Ok(false);
    }
    take_so(alloc, replay, seat, 0, file, text)
}

/// The live file that a worker's text names, with its stamp. An id that doesn't fit is that of no live file, since far fewer
/// were made.
fn named_file(replay: &Replay, text: &Block<'_>) -> Option<(u32, u64)>
    ensures { IsNamed replay.now (file_in text.now) result }
{
    ids_are_places();
    let _made = replay.made();
    let file = file_in(text)?;
    let stamp = replay.stamp_of(file)?;
    Some((file, stamp))
}
