//! Questions of lines.
ghost use Rattle.std.specs.Prelude.{◌≡◌, ◌<◌, ◌⊎◌, IfOk};
ghost use Rattle.shared_ide.specs.Made.{IsAnswered};
ghost use Rattle.shared_ide.specs.Passes.{ide_view};
ghost use Rattle.shared_ide.specs.Passes.{IsIdePassOf, Continues};
ghost use Rattle.transcripts.specs.Serial.{query_step};
ghost use Rattle.playing.specs.Answered.{IsSoftlyAnswered};

use crate::answering::answer_of;
use action_lock::Gate;
use queries::Query;
use shared_ide::{IdePass, SharedIde, SoftAskRefusal};
use std::alloc::{AllocError, Global};
use std::sync::Wait;
use transcripts::Answer;

/// Answers a question. May block.
pub(crate) fn do_ask<R: Wait, G: Gate>(
    rt: &R,
    alloc: Global,
    ide: &SharedIde,
    pass: &mut IdePass,
    query: &Query,
    gate: &G,
) -> Result<Answer, AllocError>
    requires { IsIdePassOf ide.now pass.old }
    ensures pass { Continues ide.now pass.old pass.new }
    ensures answer { IfOk result
        (IsAnswered (λ start seat. query_step start query.now) (ide_view pass.old)
        (ide_view pass.new)) }
{
    let replied = ide.ask(rt, alloc, pass, query, gate)?;
    Ok(answer_of(replied))
}

/// Answers a question that gives way to writes, or answers that it was given up after so many attempts. May block.
pub(crate) fn do_soft_ask<R: Wait, G: Gate>(
    rt: &R,
    alloc: Global,
    ide: &SharedIde,
    pass: &mut IdePass,
    attempts: u32,
    query: &Query,
    gate: &G,
) -> Result<Answer, AllocError>
    requires pass { IsIdePassOf ide.now pass.old }
    requires some { 0 < attempts }
    ensures pass { Continues ide.now pass.old pass.new }
    ensures answer { IfOk result
        (IsSoftlyAnswered attempts query.now (ide_view pass.old) (ide_view pass.new)) }
{
    match ide.soft_ask(rt, alloc, pass, attempts, query, gate) {
        Ok(replied) => Ok(answer_of(replied)),
        Err(SoftAskRefusal::Cancelled(sighted)) => Ok(Answer::Cancelled { sighted }),
        Err(SoftAskRefusal::OutOfMemory) => Err(AllocError),
    }
}
