//! Whether the record of a line can stand here.
ghost use Rattle.std.specs.Prelude.{ℕ, ◌≡◌, ◌&&◌, IfOk, length, take, bytes_eq, codes, ◌++◌, OnOk};
ghost use Rattle.std.specs.Fmt.{decimal};
ghost use Rattle.script_lang.specs.Held.{IsOfLine, IsNoLoad};
ghost use Rattle.transcript_check.specs.Section.{tells_given_up, told_text};
ghost use Rattle.transcript_check.specs.Here.{IsToldIn, head_in, tells_in};

use crate::answering::answer_here;
use crate::block::Block;
use replay::Replay;
use script_lang::{Command, Line};
use std::alloc::{AllocError, Global};
use transcripts::{Answer, Record, record_text};

/// Whether the record of a line with this text can stand here: the line adds nothing and is answered so, or another lane or
/// a worker runs beside and the text tells that the line was given up. Where the text holds at another prefix, it costs
/// nothing that grows.
pub(crate) fn is_told_here(
    alloc: Global,
    replay: &Replay,
    beside: bool,
    seat: u32,
    line: &Line,
    text: &Block<'_>,
) -> Result<bool, AllocError>
    requires line { IsOfLine line.now.command }
    requires no_load { IsNoLoad line.now.command }
    ensures { IfOk result (IsToldIn beside replay.now seat line.now text.now) }
{
    if is_left(alloc, beside, line, text)? {
        return Ok(true);
    }
    if !holds_here(alloc, replay, line, text)? {
        return Ok(false);
    }
    is_answered_so(alloc, replay, seat, line, text)
}

/// Whether another lane or a worker runs beside and the text tells that the line was given up.
fn is_left(alloc: Global, beside: bool, line: &Line, text: &Block<'_>) -> Result<bool, AllocError>
    ensures { IfOk result
        (λ left. (seat : ℕ)
        → left ≡ (beside && tells_given_up seat line.now.number line.now.command text.now)) }
{
    if !beside {
        return Ok(false);
    }
    is_given_up(alloc, line, text)
}

/// Whether the text is that of the record of a soft question that was given up.
fn is_given_up(alloc: Global, line: &Line, text: &Block<'_>) -> Result<bool, AllocError>
    ensures { IfOk result
        (λ told. (seat : ℕ)
        → told ≡ tells_given_up seat line.now.number line.now.command text.now) }
{
    match &line.command {
        Command::Soft { attempts, query: _ } => {
            let wanted = given_up_text(alloc, line.number, *attempts)?;
            Ok(text.is(&wanted))
        }
        _ => Ok(false),
    }
}

/// The text of the record of a soft question that was given up.
fn given_up_text(alloc: Global, number: u32, attempts: u32) -> Result<Vec<u8>, AllocError>
    ensures { IfOk result (λ text. text.items
        ≡ (decimal number ++ codes " ") ++ (codes "cancelled " ++ decimal attempts ++ codes "\n")) }
{
    let mut text = format!(in alloc; "{number} ")?.into_bytes();
    add_attempts(alloc, &mut text, attempts)?;
    Ok(text)
}

/// Adds how many attempts were allowed.
fn add_attempts(alloc: Global, out: &mut Vec<u8>, attempts: u32) -> Result<(), AllocError>
    ensures { OnOk result
        (out.new.items ≡ out.old.items ++ (codes "cancelled " ++ decimal attempts ++ codes "\n")) }
{
    out.extend_from_slice(format!(in alloc; "cancelled {attempts}\n")?.as_bytes())
}

/// Whether the text says that it holds here.
fn holds_here(
    alloc: Global,
    replay: &Replay,
    line: &Line,
    text: &Block<'_>,
) -> Result<bool, AllocError>
    ensures { IfOk result
        (λ holds. holds
        ≡ bytes_eq (take (length (head_in replay.now line.now.number)) text.now)
        (head_in replay.now line.now.number)) }
{
    let number = line.number;
    let at = replay.entries();
    let head = format!(in alloc; "{number} at {at} ")?;
    Ok(text.begins_with(head.as_bytes()))
}

/// Whether the line adds nothing here and its record has this text.
pub(crate) fn is_answered_so(
    alloc: Global,
    replay: &Replay,
    seat: u32,
    line: &Line,
    text: &Block<'_>,
) -> Result<bool, AllocError>
    requires { IsOfLine line.now.command }
    ensures { IfOk result (λ told. told ≡ tells_in replay.now seat line.now text.now) }
{
    let Some(answer) = answer_here(alloc, replay, line)? else {
        return Ok(false);
    };
    answer_so(alloc, seat, line.number, answer, text)
}

/// Whether a line that is answered so has a record with this text.
pub(crate) fn answer_so(
    alloc: Global,
    seat: u32,
    line: u32,
    answer: Answer,
    text: &Block<'_>,
) -> Result<bool, AllocError>
    ensures { IfOk result (λ so. so ≡ bytes_eq (told_text seat line answer) text.now) }
{
    let record = Record { seat, line, answer };
    let wanted = record_text(alloc, &record);
    drop(record);
    Ok(text.is(&wanted?))
}
