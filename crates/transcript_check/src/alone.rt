//! A section that goes alone, line by line.
ghost use Rattle.std.specs.Prelude.{◌≡◌, IfOk, false, option_map, unwrap_or};
ghost use Rattle.std.specs.Result.{result_map_both};
ghost use Rattle.write_history.specs.declared.change.Change.TheVariants.{Create};
ghost use Rattle.script_lang.specs.declared.command.Command.TheVariants as command;
ghost use Rattle.script_lang.specs.Held.{AreOfPrelude, IsOfLine};
ghost use Rattle.transcripts.specs.declared.loaded.Loaded.TheVariants as loaded;
ghost use Rattle.transcripts.specs.Serial.{load_step, settle_step, step_of};
ghost use Rattle.transcript_check.specs.Section.{is_settle, line_step};
ghost use Rattle.transcript_check.specs.Alone.{HasGone, HasTakenNext, left_where};
ghost use Rattle.transcript_check.specs.Going.{HasComeAlone};

use crate::answering::settle_goes_on;
use crate::block::Block;
use crate::cursor::{change_so, take_lowest_so};
use crate::stop::LineStop;
use crate::told::{answer_so, is_answered_so};
use ide_text::{Name, SharedText};
use replay::Replay;
use script_lang::{Command, Line};
use std::alloc::{AllocError, Global};
use std::marker::Model;
use transcripts::{Answer, Loaded};
use write_history::{Change, is_lawful_path};

/// The texts of entries that are left, in order.
#[derive(Drop)]
struct Texts<'a> {
    left: &'a [Block<'a>],
}

impl<'a> Model for Texts<'a> {
    ghost use Rattle.std.specs.Prelude.{ℕ, List};

    ghost Value = { List (List ℕ) };

    ghost view = { λ t. t.left.now };
}

/// Goes through the lines of a section in order, of each of which this was read: what a line adds is printed by the next
/// texts of entries, and its record by the next text of records. Gives the texts that are left, or the first line that
/// doesn't go so. It costs what the lines do.
pub(crate) fn come_alone<'a>(
    alloc: Global,
    replay: &mut Replay,
    seat: u32,
    lines: &[Line],
    loads: &[Loaded],
    entries: &'a [Block<'a>],
    records: &'a [Block<'a>],
) -> Result<Result<(&'a [Block<'a>], &'a [Block<'a>]), LineStop>, AllocError>
    requires { AreOfPrelude lines.now }
    ensures { IfOk result
        (λ left. HasComeAlone seat lines.now loads.now entries.now records.now replay.old replay.new
        (result_map_both (λ l. (l.0.now, l.1.now)) (λ stop. stop) left)) }
{
    let mut made = Texts { left: entries };
    for (at, line) in lines.iter().enumerate() {
        let stop = LineStop {
            seat,
            line: line.number,
            entries: made.left.len(),
            records: records.len() - at,
        };
        let Some(text) = records.get(at) else {
            return Ok(Err(stop));
        };
        if !line_so(alloc, replay, seat, line, loads.get(at), text, &mut made)? {
            return Ok(Err(stop));
        }
    }
    Ok(Ok((made.left, &records[lines.len()..])))
}

/// Goes behind a line, of which this was read.
fn line_so(
    alloc: Global,
    replay: &mut Replay,
    seat: u32,
    line: &Line,
    load: Option<&Loaded>,
    text: &Block<'_>,
    made: &mut Texts<'_>,
) -> Result<bool, AllocError>
    requires { IsOfLine line.now.command }
    ensures { IfOk result
        (λ went. HasGone
        (λ history. step_of
        (unwrap_or (option_map (λ l. l.now) load.entry) loaded.Nothing) history seat
        line.now.number line.now.command)
        seat line.now.number text.now made.old replay.old replay.new
        (left_where went made.new)) }
{
    match &line.command {
        Command::Settle => settle_so(alloc, replay, seat, line, text, made),
        Command::Load { path } => load_so(alloc, replay, seat, line, path, load, text, made),
        _ => plain_so(alloc, replay, seat, line, text, made),
    }
}

/// Goes behind a settle: each unready file is taken in, by the lowest id, until none is unready or the history is full.
fn settle_so(
    alloc: Global,
    replay: &mut Replay,
    seat: u32,
    line: &Line,
    text: &Block<'_>,
    made: &mut Texts<'_>,
) -> Result<bool, AllocError>
    requires { line.now.command ≡ command.Settle }
    ensures { IfOk result (λ went. HasGone (λ history. settle_step history seat line.now.number)
        seat line.now.number text.now made.old replay.old replay.new (left_where went made.new)) }
{
    while settle_goes_on(replay) {
        if !take_next_so(alloc, replay, seat, line.number, made)? {
            return Ok(false);
        }
    }
    is_answered_so(alloc, replay, seat, line, text)
}

/// Takes the unready file with the lowest id in as the next entry.
fn take_next_so(
    alloc: Global,
    replay: &mut Replay,
    seat: u32,
    line: u32,
    made: &mut Texts<'_>,
) -> Result<bool, AllocError>
    ensures { IfOk result (HasTakenNext replay.old replay.new seat line made.old made.new) }
{
    let left = made.left;
    let Some((entry, later)) = left.split_first() else {
        return Ok(false);
    };
    *made = Texts { left: later };
    take_lowest_so(alloc, replay, seat, line, entry)
}

/// Goes behind a load, for which this was read.
fn load_so(
    alloc: Global,
    replay: &mut Replay,
    seat: u32,
    line: &Line,
    path: &Name,
    load: Option<&Loaded>,
    text: &Block<'_>,
    made: &mut Texts<'_>,
) -> Result<bool, AllocError>
    requires { line.now.command ≡ command.Load path.now }
    ensures { IfOk result
        (λ went. HasGone
        (λ history. load_step history seat line.now.number path.now
        (unwrap_or (option_map (λ l. l.now) load.entry) loaded.Nothing))
        seat line.now.number text.now made.old replay.old replay.new
        (left_where went made.new)) }
{
    let Some(load) = load else {
        return plain_so(alloc, replay, seat, line, text, made);
    };
    if !is_lawful_path(path) {
        return plain_so(alloc, replay, seat, line, text, made);
    }
    match load {
        Loaded::Nothing => plain_so(alloc, replay, seat, line, text, made),
        Loaded::Text { text: content } => {
            let create = creating(line.number, path, content)?;
            let went = plain_so(alloc, replay, seat, &create, text, made);
            drop(create);
            went
        }
        Loaded::NotText { at } => {
            answer_so(alloc, seat, line.number, Answer::NotText { at: *at }, text)
        }
        Loaded::TooLong { count } => {
            answer_so(
                alloc,
                seat,
                line.number,
                Answer::TooLong { count: *count },
                text,
            )
        }
    }
}

/// The line that creates what a load read.
fn creating(number: u32, path: &Name, content: &SharedText) -> Result<Line, AllocError>
    ensures { IfOk result
        (λ line. line
        ≡ record { number = number; command = command.Change (Create path.now content.now) }) }
{
    let change = Change::Create {
        path: path.copy()?,
        text: content.share()?,
    };
    Ok(Line {
        number,
        command: Command::Change(change),
    })
}

/// Goes behind a line that is no settle, and for which nothing was read: it adds nothing and is answered so, or its changes
/// go in as the next entry.
fn plain_so(
    alloc: Global,
    replay: &mut Replay,
    seat: u32,
    line: &Line,
    text: &Block<'_>,
    made: &mut Texts<'_>,
) -> Result<bool, AllocError>
    requires line { IsOfLine line.now.command }
    requires no_settle { is_settle line.now.command ≡ false }
    ensures { IfOk result (λ went. HasGone (λ history. line_step history seat line.now)
        seat line.now.number text.now made.old replay.old replay.new (left_where went made.new)) }
{
    if is_answered_so(alloc, replay, seat, line, text)? {
        return Ok(true);
    }
    let left = made.left;
    let Some((entry, later)) = left.split_first() else {
        return Ok(false);
    };
    *made = Texts { left: later };
    change_so(alloc, replay, seat, line, text, entry)
}
