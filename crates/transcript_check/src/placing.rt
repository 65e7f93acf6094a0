//! The blocks of a transcript where going through it stops.
ghost use Rattle.std.specs.Prelude.{◌≡◌, length, take};
ghost use Rattle.transcript_check.specs.Phase.{after_lanes};
ghost use Rattle.transcript_check.specs.Misfit.{entry_block, left_misfit, line_misfit, record_block, side_misfit};

use crate::Misfit;
use crate::block::Block;
use crate::lanes::after_lanes;
use crate::stop::{LineStop, SideStop};
use script_lang::Script;

/// The block of the first entry of those that are left of some.
fn entry_block(entries: &[Block<'_>], left: usize) -> usize
    ensures { result ≡ entry_block entries.now left }
{
    (entries.len() + 1).saturating_sub(left)
}

/// The block of the first record of those that are left of some, and behind which so many later ones come.
fn record_block(entries: &[Block<'_>], records: &[Block<'_>], later: usize, left: usize) -> usize
    ensures { result ≡ record_block entries.now records.now later left }
{
    entries.len() + 1 + records.len().saturating_sub(later).saturating_sub(left)
}

/// A line doesn't go, behind whose section so many records come.
pub(crate) fn line_misfit(
    entries: &[Block<'_>],
    records: &[Block<'_>],
    later: usize,
    stop: &LineStop,
) -> Misfit
    ensures { result ≡ line_misfit entries.now records.now later stop.now }
{
    Misfit::Line {
        seat: stop.seat,
        line: stop.line,
        entry: entry_block(entries, stop.entries),
        record: record_block(entries, records, later, stop.records),
    }
}

/// Lanes and workers stop, where the records behind the prelude are these.
pub(crate) fn side_misfit<'a>(
    script: &Script,
    entries: &[Block<'_>],
    records: &[Block<'_>],
    told: &'a [Block<'a>],
    stop: &SideStop,
) -> Misfit
    ensures { result ≡ side_misfit script.now entries.now records.now told.now stop.now }
{
    match stop {
        SideStop::Line { stop } => {
            let later = behind_lane(script, stop.seat, told);
            line_misfit(entries, records, later, stop)
        }
        SideStop::Entry { seat, left } => Misfit::Entry {
            seat: *seat,
            position: entry_block(entries, *left),
        },
    }
}

/// How many records come behind those of the lane with a seat.
fn behind_lane<'a>(script: &Script, seat: u32, told: &'a [Block<'a>]) -> usize
    ensures { result ≡ length (after_lanes (take seat script.now.lanes) told.now) }
{
    let count = script.lanes().min(seat as usize);
    after_lanes(script, count, told).len()
}

/// The first text that is left behind the last section, if any is.
pub(crate) fn left_misfit(
    entries: &[Block<'_>],
    records: &[Block<'_>],
    made: &[Block<'_>],
    told: &[Block<'_>],
) -> Option<Misfit>
    ensures { result ≡ left_misfit entries.now records.now made.now told.now }
{
    if !made.is_empty() {
        return Some(Misfit::Left {
            block: entry_block(entries, made.len()),
        });
    }
    if !told.is_empty() {
        return Some(Misfit::Left {
            block: record_block(entries, records, 0, told.len()),
        });
    }
    None
}
