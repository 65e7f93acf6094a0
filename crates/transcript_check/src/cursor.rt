//! A section on its way through a history.
ghost use Rattle.std.specs.Prelude.{◌≡◌, ◌<◌, length, true, IfOk, OnOk};
ghost use Rattle.std.specs.List.{list_all};
ghost use Rattle.write_history.specs.Changes.{is_edit};
ghost use Rattle.script_lang.specs.Held.{IsOfLine};
ghost use Rattle.transcript_check.specs.Section.{is_settle};
ghost use Rattle.transcript_check.specs.Here.{HasToldOne, IsToldAll, HasMadeNext, HasChanged, HasTakenLowest, HasEnteredSo};

use crate::block::Block;
use crate::entering::{enter_so, take_so};
use crate::told::{answer_so, is_told_here};
use replay::Replay;
use script_lang::{Command, Line};
use std::alloc::{AllocError, Global};
use std::marker::Model;
use transcripts::Answer;
use write_history::{Changes, Entry};

/// A section on its way: its lines that are left, with the texts of their records, and whether it is in the middle of a
/// settle.
#[derive(Drop)]
pub(crate) struct Cursor<'a> {
    pub(crate) seat: u32,
    pub(crate) lines: &'a [Line],
    pub(crate) texts: &'a [Block<'a>],
    pub(crate) settling: bool,
}

impl<'a> Model for Cursor<'a> {
    ghost use Rattle.script_lang.specs.Held.{AreOfSection};
    ghost use Rattle.transcript_check.specs.Section.{Cursor as Way};

    ghost Value = { Way };

    ghost view = { λ c. record { seat = c.seat; lines = c.lines.now; texts = c.texts.now; settling = c.settling } };

    ghost invariant = { λ c. AreOfSection c.lines.now };
}

impl<'a> Cursor<'a> {
    /// Goes behind all records that are told here, one after another.
    pub(crate) fn tell(
        &mut self,
        alloc: Global,
        replay: &Replay,
        beside: bool,
    ) -> Result<(), AllocError>
        ensures { OnOk result (IsToldAll beside replay.now self.old self.new) }
    {
        while self.tell_one(alloc, replay, beside)? {}
        Ok(())
    }

    /// Goes behind the next record where it is told here, and answers whether it is.
    fn tell_one(&mut self, alloc: Global, replay: &Replay, beside: bool) -> Result<bool, AllocError>
        ensures told { IfOk result (HasToldOne beside replay.now self.old self.new) }
        ensures fewer { IfOk result
            (λ told. told ≡ true → length self.new.lines < length self.old.lines) }
    {
        let lines = self.lines;
        let texts = self.texts;
        let Some((line, later)) = lines.split_first() else {
            return Ok(false);
        };
        let Some((text, rest)) = texts.split_first() else {
            return Ok(false);
        };
        if !is_told_here(
            alloc,
            replay,
            beside & !self.settling,
            self.seat,
            line,
            text,
        )? {
            return Ok(false);
        }
        *self = Cursor {
            seat: self.seat,
            lines: later,
            texts: rest,
            settling: false,
        };
        Ok(true)
    }

    /// Makes the next entry of the section where it is printed so, and goes behind it.
    pub(crate) fn make(
        &mut self,
        alloc: Global,
        replay: &mut Replay,
        text: &Block<'_>,
    ) -> Result<bool, AllocError>
        ensures { IfOk result (HasMadeNext replay.old replay.new self.old self.new text.now) }
    {
        let seat = self.seat;
        let lines = self.lines;
        let texts = self.texts;
        let Some((line, later)) = lines.split_first() else {
            return Ok(false);
        };
        let Some((told, rest)) = texts.split_first() else {
            return Ok(false);
        };
        if is_settle(&line.command) {
            self.settling = true;
            return take_lowest_so(alloc, replay, seat, line.number, text);
        }
        *self = Cursor {
            seat,
            lines: later,
            texts: rest,
            settling: false,
        };
        change_so(alloc, replay, seat, line, told, text)
    }
}

/// Whether a command is a settle.
fn is_settle(command: &Command) -> bool
    ensures { result ≡ is_settle command.now }
{
    matches!(command, Command::Settle)
}

/// Takes the unready file with the lowest id in as the entry with this text.
pub(crate) fn take_lowest_so(
    alloc: Global,
    replay: &mut Replay,
    seat: u32,
    line: u32,
    text: &Block<'_>,
) -> Result<bool, AllocError>
    ensures { IfOk result (HasTakenLowest replay.old replay.new seat line text.now) }
{
    match replay.lowest_unready() {
        Some(file) => take_so(alloc, replay, seat, line, file, text),
        None => Ok(false),
    }
}

/// Makes the changes of a line as the entry with this text, where the line's record tells that they were accepted.
pub(crate) fn change_so(
    alloc: Global,
    replay: &mut Replay,
    seat: u32,
    line: &Line,
    told: &Block<'_>,
    text: &Block<'_>,
) -> Result<bool, AllocError>
    requires { IsOfLine line.now.command }
    ensures { IfOk result (HasChanged replay.old replay.new seat line.now told.now text.now) }
{
    let changes = match &line.command {
        Command::Change(change) => Changes::one(change.copy()?),
        Command::Group(changes) => changes.copy()?,
        _ => return Ok(false),
    };
    let entry = Entry {
        seat,
        line: line.number,
        changes,
    };
    let went = accept_so(alloc, replay, &entry, told, text);
    drop(entry);
    went
}

/// Makes the changes of an entry as the one with this text, where the record of its line tells that they were accepted.
fn accept_so(
    alloc: Global,
    replay: &mut Replay,
    entry: &Entry,
    told: &Block<'_>,
    text: &Block<'_>,
) -> Result<bool, AllocError>
    requires { list_all is_edit entry.now.changes ≡ true }
    ensures { IfOk result
        (HasEnteredSo replay.old replay.new entry.now.seat entry.now.line entry.now.changes
        told.now text.now) }
{
    let answer = Answer::Accepted {
        at: replay.entries() + 1,
    };
    if !answer_so(alloc, entry.seat, entry.line, answer, told)? {
        return Ok(false);
    }
    enter_so(alloc, replay, entry, text)
}
