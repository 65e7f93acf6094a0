//! Sections side by side.
ghost use Rattle.std.specs.Prelude.{◌≡◌, OnOk};
ghost use Rattle.std.specs.List.{position};
ghost use Rattle.transcript_check.specs.Section.{is_over};
ghost use Rattle.transcript_check.specs.Phase.{is_busy};
ghost use Rattle.transcript_check.specs.Here.{AreToldAll};
ghost use Rattle.transcript_check.specs.Stops.{waits};

use crate::cursor::Cursor;
use replay::Replay;
use std::alloc::{AllocError, Global};

/// All sections go behind the records that are told here.
pub(crate) fn tell_all(
    alloc: Global,
    replay: &Replay,
    beside: bool,
    cursors: &mut [Cursor<'_>],
) -> Result<(), AllocError>
    ensures { OnOk result (AreToldAll beside replay.now cursors.old cursors.new) }
{
    for place in 0..cursors.len() {
        cursors[place].tell(alloc, replay, beside)?;
    }
    Ok(())
}

/// Whether one of some sections is in the middle of a settle.
pub(crate) fn is_busy(cursors: &[Cursor<'_>]) -> bool
    ensures { result ≡ is_busy cursors.now }
{
    cursors.iter().any(|cursor| cursor.settling)
}

/// The place of the first section that hasn't come to its end.
pub(crate) fn waiting(cursors: &[Cursor<'_>]) -> Option<usize>
    ensures { result ≡ position waits cursors.now }
{
    cursors.iter().position(waits)
}

/// Whether a section hasn't come to its end.
fn waits(cursor: &Cursor<'_>) -> bool
    ensures { result ≡ waits cursor.now }
{
    !is_over(cursor)
}

/// Whether a section has come to its end, with no text left.
fn is_over(cursor: &Cursor<'_>) -> bool
    ensures { result ≡ is_over cursor.now }
{
    cursor.lines.is_empty() && cursor.texts.is_empty() && !cursor.settling
}
