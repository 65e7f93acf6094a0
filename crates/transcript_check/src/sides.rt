//! Lanes and workers side by side, entry by entry.
ghost use Rattle.std.specs.Prelude.{◌≡◌, ◌+◌, ◌≤◌, ◌<◌, ◌==◌, ◌||◌, IfOk, length, take, drop};
ghost use Rattle.std.specs.Result.{result_map_both};
ghost use Rattle.std.specs.List.{position};
ghost use Rattle.transcript_check.specs.Phase.{is_busy};
ghost use Rattle.transcript_check.specs.Going.{HasReached};
ghost use Rattle.transcript_check.specs.Sides.{HasSectionGone, HasSeatGone};
ghost use Rattle.transcript_check.specs.Stops.{first_number, left_or, waits_at};

use crate::block::Block;
use crate::cursor::Cursor;
use crate::intakes::Intakes;
use crate::numbers::seat_here;
use crate::round::{is_busy, tell_all, waiting};
use crate::stop::{LineStop, SideStop};
use crate::workers::worker_goes;
use replay::Replay;
use script_lang::Line;
use std::alloc::{AllocError, Global};

/// Goes on with lanes and workers side by side, entry by entry, up to the first text that is of no seat here. Gives the
/// texts that are left, or the first entry that doesn't go in so, or else the first lane that isn't over. For each entry it goes once over the
/// lanes, and looks among the intakes that workers made, besides what the entry itself costs.
pub(crate) fn reach<'a>(
    alloc: Global,
    replay: &mut Replay,
    beside: bool,
    lanes: u32,
    workers: u32,
    cursors: &mut [Cursor<'_>],
    entries: &'a [Block<'a>],
) -> Result<Result<&'a [Block<'a>], SideStop>, AllocError>
    requires few { lanes + workers ≤ 65536 }
    ensures { IfOk result
        (λ left. HasReached beside lanes workers cursors.old entries.now replay.old replay.new
        (result_map_both (λ l. l.now) (λ stop. stop) left)) }
{
    let mut taken = Intakes::new(alloc);
    tell_all(alloc, replay, beside, cursors)?;
    for (place, text) in entries.iter().enumerate() {
        let Some(seat) = seat_here(text, lanes + workers) else {
            return Ok(where_over(cursors, &entries[place..]));
        };
        if !seat_goes(alloc, replay, &mut taken, lanes, seat, cursors, text)? {
            let left = entries.len() - place;
            return Ok(Err(SideStop::Entry { seat, left }));
        }
        tell_all(alloc, replay, beside, cursors)?;
    }
    Ok(where_over(cursors, &[]))
}

/// The texts that are left where each lane is over, else the first that isn't.
fn where_over<'a>(
    cursors: &[Cursor<'_>],
    left: &'a [Block<'a>],
) -> Result<&'a [Block<'a>], SideStop>
    ensures { result_map_both (λ l. l.now) (λ stop. stop) result ≡ left_or cursors.now left.now }
{
    match waiting(cursors) {
        None => Ok(left),
        Some(place) => Err(SideStop::Line {
            stop: waits_at(&cursors[place], left),
        }),
    }
}

/// Where a lane waits that isn't over.
fn waits_at(cursor: &Cursor<'_>, left: &[Block<'_>]) -> LineStop
    ensures { result ≡ waits_at cursor.now left.now }
{
    LineStop {
        seat: cursor.seat,
        line: first_number(cursor.lines),
        entries: left.len(),
        records: cursor.texts.len(),
    }
}

/// The number of the first of some lines, 0 where there is none.
fn first_number(lines: &[Line]) -> u32
    ensures { result ≡ first_number lines.now }
{
    match lines.first() {
        Some(line) => line.number,
        None => 0,
    }
}

/// The next entry, of the lane or worker with this seat, goes in where it has this text.
fn seat_goes(
    alloc: Global,
    replay: &mut Replay,
    taken: &mut Intakes,
    lanes: u32,
    seat: u32,
    cursors: &mut [Cursor<'_>],
    text: &Block<'_>,
) -> Result<bool, AllocError>
    ensures { IfOk result
        (HasSeatGone lanes replay.old replay.new taken.old taken.new seat cursors.old cursors.new
        text.now) }
{
    if seat <= lanes {
        section_goes(alloc, replay, seat, cursors, text)
    } else {
        worker_goes(alloc, replay, taken, seat, cursors, text)
    }
}

/// The next entry of the section with this seat goes in where it is printed so and no other is in the middle of a settle.
/// It goes down the sections, as many as lanes.
fn section_goes(
    alloc: Global,
    replay: &mut Replay,
    seat: u32,
    cursors: &mut [Cursor<'_>],
    text: &Block<'_>,
) -> Result<bool, AllocError>
    ensures { IfOk result
        (HasSectionGone replay.old replay.new seat cursors.old cursors.new text.now) }
{
    let Some(place) = place_of(cursors, seat) else {
        return Ok(false);
    };
    if is_busy_beside(cursors, place) {
        return Ok(false);
    }
    cursors[place].make(alloc, replay, text)
}

/// The place of the section with a seat.
fn place_of(cursors: &[Cursor<'_>], seat: u32) -> Option<usize>
    ensures { result ≡ position (λ c. c.seat == seat) cursors.now }
{
    cursors.iter().position(|cursor| cursor.seat == seat)
}

/// Whether a section beside the one at a place is in the middle of a settle.
fn is_busy_beside(cursors: &[Cursor<'_>], place: usize) -> bool
    requires { place < length cursors.now }
    ensures { result
        ≡ (is_busy (take place cursors.now) || is_busy (drop (place + 1) cursors.now)) }
{
    is_busy(&cursors[..place]) || is_busy(&cursors[place + 1..])
}
