//! Settles of lines.
ghost use Rattle.std.specs.Prelude.{◌≡◌, IfOk};
ghost use Rattle.shared_ide.specs.Made.{IsAnswered};
ghost use Rattle.shared_ide.specs.Passes.{ide_view};
ghost use Rattle.shared_ide.specs.Passes.{IsIdePassOf, Continues};
ghost use Rattle.transcripts.specs.Serial.{settle_step};

use shared_ide::{IdePass, SettleRefusal, SharedIde};
use std::alloc::{AllocError, Global};
use std::sync::Wait;
use std::thread::Threads;
use transcripts::Answer;
use write_history::Refusal;

/// Takes every unready file in, or answers that the history is full. May block.
pub(crate) fn do_settle<R: Threads + Wait>(
    rt: &R,
    alloc: Global,
    ide: &SharedIde,
    pass: &mut IdePass,
    line: u32,
) -> Result<Answer, AllocError>
    requires { IsIdePassOf ide.now pass.old }
    ensures pass { Continues ide.now pass.old pass.new }
    ensures answer { IfOk result
        (IsAnswered (λ start seat. settle_step start seat line) (ide_view pass.old)
        (ide_view pass.new)) }
{
    match ide.settle(rt, alloc, pass, line) {
        Ok(at) => Ok(Answer::Smart { at }),
        Err(SettleRefusal::HistoryFull { at }) => Ok(Answer::Refused {
            at,
            place: None,
            why: Refusal::HistoryFull,
        }),
        Err(SettleRefusal::OutOfMemory) => Err(AllocError),
    }
}
