//! Judging bytes by going through them once.
ghost use Rattle.std.specs.Prelude.{◌≡◌, ◌≢◌, ◌≤◌, ◌-◌, ◌↔◌, IfOk, OnOk, Err, None, length, is_none};
ghost use Rattle.std.specs.List.{flat_map};
ghost use Rattle.std.specs.Result.{result_map_both};
ghost use Rattle.ide_io.specs.Asks.{AsksEach, AsksFront, AsksSome};
ghost use Rattle.ide_io.specs.Fault.{HasFault};
ghost use Rattle.write_history.specs.World.{empty_world};
ghost use Rattle.transcripts.specs.Fits.{run_beside};
ghost use Rattle.transcripts.specs.Loads.{paths_of};
ghost use Rattle.transcript_check.specs.Going.{HasReached};
ghost use Rattle.transcript_check.specs.Phase.{cursors_of};
ghost use Rattle.transcript_check.specs.Texts.{history_line};
ghost use Rattle.transcripts.specs.Play.{IsTranscriptOf};
ghost use Rattle.transcript_check.specs.Verdict.{Judges, told_verdict};
ghost use Rattle.transcript_check.specs.Misfit.{FindsMisfit, entries_among, last_misfit, misfit_among, misfit_in, misfit_of};

use crate::alone::come_alone;
use crate::block::Block;
use crate::blocks::cut;
use crate::lanes::{after_lanes, cursors_of};
use crate::laws::transcripts_alone_have_no_misfit;
use crate::placing::{left_misfit, line_misfit, side_misfit};
use crate::sides::reach;
use crate::stop::{LineStop, SideStop};
use crate::{Misfit, Verdict, VerdictRefusal};
use ide_io::Tree;
use replay::Replay;
use script_lang::Script;
use std::alloc::{AllocError, Global};
use transcripts::{LoadRefusal, Loaded, read_loads};

/// Whether the bytes are a transcript of the script with so many workers, where its loads read what the tree gives. The
/// tree is asked for the file of each load of a lawful path, in the order of the lines; `TreeFault` where it fails at one.
/// It costs what going through the history does, on one thread, and is linear in the bytes besides.
pub fn verdict<T: Tree>(
    alloc: Global,
    script: &Script,
    workers: u32,
    tree: &mut T,
    bytes: &[u8],
) -> Result<Verdict, VerdictRefusal>
    requires few { workers ≤ 8 }
    ensures verdict { IfOk result (Judges (T.files tree.old) script.now workers bytes.now) }
    ensures asks { AsksFront T.asks tree.old (paths_of script.now.prelude) tree.new }
    ensures asks_each { OnOk result
        (AsksEach T.asks tree.old (paths_of script.now.prelude) tree.new) }
    ensures asks_some { result ≡ Err VerdictRefusal.TreeFault
        → AsksSome T.asks tree.old (paths_of script.now.prelude) tree.new }
    ensures fault { result ≡ Err VerdictRefusal.TreeFault
        → HasFault (T.faults tree.old) (T.faults tree.new) }
    ensures files { T.files tree.new ≡ T.files tree.old }
    ensures quiet { result ≢ Err VerdictRefusal.TreeFault → T.faults tree.new ≡ T.faults tree.old }
{
    let found = first_misfit(alloc, script, workers, tree, bytes)?;
    Ok(verdict_of(found))
}

/// The verdict on bytes whose first misfit is this.
fn verdict_of(found: Option<Misfit>) -> Verdict
    ensures { result ≡ told_verdict (is_none found) }
{
    match found {
        None => Verdict::Good,
        Some(_) => Verdict::Bad,
    }
}

/// The first block that doesn't fit, and why, as going through the bytes for the verdict on them meets it, where the loads
/// read what the tree gives: none exactly where they are a transcript of the script with so many workers. For people; the
/// tree is asked, and it costs, as for the verdict.
pub fn first_misfit<T: Tree>(
    alloc: Global,
    script: &Script,
    workers: u32,
    tree: &mut T,
    bytes: &[u8],
) -> Result<Option<Misfit>, VerdictRefusal>
    requires few { workers ≤ 8 }
    ensures misfit { IfOk result (FindsMisfit (T.files tree.old) script.now workers bytes.now) }
    ensures asks { AsksFront T.asks tree.old (paths_of script.now.prelude) tree.new }
    ensures asks_each { OnOk result
        (AsksEach T.asks tree.old (paths_of script.now.prelude) tree.new) }
    ensures asks_some { result ≡ Err VerdictRefusal.TreeFault
        → AsksSome T.asks tree.old (paths_of script.now.prelude) tree.new }
    ensures fault { result ≡ Err VerdictRefusal.TreeFault
        → HasFault (T.faults tree.old) (T.faults tree.new) }
    ensures files { T.files tree.new ≡ T.files tree.old }
    ensures quiet { result ≢ Err VerdictRefusal.TreeFault → T.faults tree.new ≡ T.faults tree.old }
{
    let loads = match read_loads(alloc, script.prelude(), tree) {
        Ok(loads) => loads,
        Err(LoadRefusal::TreeFault) => return Err(VerdictRefusal::TreeFault),
        Err(LoadRefusal::OutOfMemory) => return Err(VerdictRefusal::OutOfMemory),
    };
    match judged(alloc, script, workers, &loads, bytes) {
        Ok(found) => Ok(found),
        Err(_) => Err(VerdictRefusal::OutOfMemory),
    }
}

/// The first misfit, where this was read for the loads.
fn judged(
    alloc: Global,
    script: &Script,
    workers: u32,
    loads: &[Loaded],
    bytes: &[u8],
) -> Result<Option<Misfit>, AllocError>
    requires { workers ≤ 8 }
    ensures is { IfOk result (λ found. found ≡ misfit_of loads.now script.now workers bytes.now) }
    ensures none { IfOk result
        (λ found. (found ≡ None) ↔ IsTranscriptOf loads.now script.now workers bytes.now) }
{
    transcripts_alone_have_no_misfit();
    script.is_of_script();
    misfit_of(alloc, script, workers, loads, bytes)
}

/// The first misfit of bytes, where this was read for the loads.
fn misfit_of(
    alloc: Global,
    script: &Script,
    workers: u32,
    loads: &[Loaded],
    bytes: &[u8],
) -> Result<Option<Misfit>, AllocError>
    requires { workers ≤ 8 }
    ensures { IfOk result (λ found. found ≡ misfit_of loads.now script.now workers bytes.now) }
{
    let blocks = cut(alloc, bytes)?;
    misfit_in(alloc, script, workers, loads, &blocks)
}

/// The first misfit among blocks: the first one tells how many of the others are entries.
fn misfit_in(
    alloc: Global,
    script: &Script,
    workers: u32,
    loads: &[Loaded],
    blocks: &[Block<'_>],
) -> Result<Option<Misfit>, AllocError>
    requires { workers ≤ 8 }
    ensures { IfOk result (λ found. found ≡ misfit_in loads.now script.now workers blocks.now) }
{
    let Some((first, others)) = blocks.split_first() else {
        return Ok(Some(Misfit::NoBlock));
    };
    let count = entries_among(script, others);
    if !first.is(&history_line(alloc, count)?) {
        return Ok(Some(Misfit::History { entries: count }));
    }
    let (entries, records) = others.split_at(count);
    misfit_among(alloc, script, workers, loads, entries, records)
}

/// The line that tells how many entries a history has.
fn history_line(alloc: Global, count: usize) -> Result<Vec<u8>, AllocError>
    ensures { IfOk result (λ text. text.items ≡ history_line count) }
{
    Ok(format!(in alloc; "history {count}\n")?.into_bytes())
}

/// How many of the blocks behind the first are those of entries: there is a record for each line of the script.
fn entries_among(script: &Script, others: &[Block<'_>]) -> usize
    ensures { result ≡ entries_among script.now others.now }
{
    let behind_prelude = others.len().saturating_sub(script.prelude().len());
    let behind_lanes = without_lanes(script, behind_prelude);
    behind_lanes.saturating_sub(script.last().len())
}

/// What is left of a number without the lines of the lanes.
fn without_lanes(script: &Script, count: usize) -> usize
    ensures { result ≡ count - length (flat_map (λ lane. lane) script.now.lanes) }
{
    let mut left = count;
    for place in 0..script.lanes() {
        left = left.saturating_sub(script.lane(place).len());
    }
    left
}

/// The first misfit among the texts of entries and records.
fn misfit_among(
    alloc: Global,
    script: &Script,
    workers: u32,
    loads: &[Loaded],
    entries: &[Block<'_>],
    records: &[Block<'_>],
) -> Result<Option<Misfit>, AllocError>
    requires { workers ≤ 8 }
    ensures { IfOk result
        (λ found. found ≡ misfit_among loads.now script.now workers entries.now records.now) }
{
    let mut replay = Replay::empty(alloc);
    let found = goes_through(alloc, &mut replay, script, workers, loads, entries, records);
    drop(replay);
    found
}

/// Goes through the texts of a run with a workspace without a file, and without an entry, up to the first misfit.
fn goes_through(
    alloc: Global,
    replay: &mut Replay,
    script: &Script,
    workers: u32,
    loads: &[Loaded],
    entries: &[Block<'_>],
    records: &[Block<'_>],
) -> Result<Option<Misfit>, AllocError>
    requires few { workers ≤ 8 }
    requires empty { replay.old ≡ empty_world }
    ensures { IfOk result
        (λ found. found ≡ misfit_among loads.now script.now workers entries.now records.now) }
{
    let opened = come_alone(alloc, replay, 0, script.prelude(), loads, entries, records)?;
    let (made, told) = match opened {
        Ok(left) => left,
        Err(stop) => return Ok(Some(line_misfit(entries, records, 0, &stop))),
    };
    let reached = go_beside(alloc, replay, script, workers, made, told)?;
    let left = match reached {
        Ok(left) => left,
        Err(stop) => return Ok(Some(side_misfit(script, entries, records, told, &stop))),
    };
    let later = after_lanes(script, script.lanes(), told);
    let closed = come_alone(alloc, replay, 0, script.last(), &[], left, later)?;
    Ok(last_misfit(entries, records, closed))
}

/// Goes on with the lanes of a script, whose records these texts begin with, and with so many workers, side by side. Gives
/// the texts of entries that are left, or where they stop.
fn go_beside<'a>(
    alloc: Global,
    replay: &mut Replay,
    script: &Script,
    workers: u32,
    entries: &'a [Block<'a>],
    records: &[Block<'_>],
) -> Result<Result<&'a [Block<'a>], SideStop>, AllocError>
    requires { workers ≤ 8 }
    ensures { IfOk result
        (λ left. HasReached (run_beside (length script.now.lanes) workers)
        (length script.now.lanes) workers
        (cursors_of 1 script.now.lanes records.now) entries.now replay.old replay.new
        (result_map_both (λ l. l.now) (λ stop. stop) left)) }
{
    let mut cursors = cursors_of(alloc, script, records)?;
    let lanes = script.lanes() as u32;
    let beside = lanes + workers > 1;
    reach(alloc, replay, beside, lanes, workers, &mut cursors, entries)
}

/// The misfit of the last section, or what is left behind it.
fn last_misfit(
    entries: &[Block<'_>],
    records: &[Block<'_>],
    closed: Result<(&[Block<'_>], &[Block<'_>]), LineStop>,
) -> Option<Misfit>
    ensures { result
        ≡ last_misfit entries.now records.now
        (result_map_both (λ l. (l.0.now, l.1.now)) (λ stop. stop) closed.entry) }
{
    match closed {
        Ok((made, told)) => left_misfit(entries, records, made, told),
        Err(stop) => Some(line_misfit(entries, records, 0, &stop)),
    }
}
