//! Printing the transcript and the summary of a run.
ghost use Rattle.std.specs.Prelude.{◌≡◌, ◌++◌, ℕ, List, IfOk, OnOk, string_bytes, [], codes};
ghost use Rattle.std.specs.List.{flat_map};
ghost use Rattle.std.specs.Option.{option_map_or};
ghost use Rattle.std.specs.Fmt.{decimal};
ghost use Rattle.write_history.specs.Print.{why_text};
ghost use Rattle.transcripts.specs.Play.{ended_of};
ghost use Rattle.transcripts.specs.Transcript.{transcript_of, summary_of, history_text, entry_lines, record_text, summary_text, prefix_text, answer_text, place_of_refusal};

use crate::found::push_found;
use crate::{Answer, Played, Record};
use std::alloc::{AllocError, Global};
use write_history::{History, Refusal, push_line, push_numbered};

/// The bytes of a usual line of a transcript: those of an entry or a record with a short path.
const USUAL_LINE: usize = 32;

/// The transcript: the history, then one record for each command, in UTF-8.
pub fn transcript(alloc: Global, played: &Played) -> Result<Vec<u8>, AllocError>
    ensures { IfOk result (λ bytes. bytes.items ≡ transcript_of (ended_of played.now)) }
{
    let mut out = String::new(alloc);
    out.reserve(usual_len(played))?;
    push_history(&mut out, &played.history)?;
    push_records(&mut out, played.records.as_slice())?;
    push_records(&mut out, played.last.as_slice())?;
    Ok(out.into_bytes())
}

/// The bytes for which a transcript makes room at first, so that most never have to be moved: a line for each entry and record.
fn usual_len(played: &Played) -> usize {
    let entries = played.history.len() as usize;
    let before = played.records.as_slice().len();
    let last = played.last.as_slice().len();
    let lines = entries.saturating_add(before).saturating_add(last);
    lines.saturating_mul(USUAL_LINE)
}

/// The summary: what the commands of the last section were answered, without the numbers of lines and prefixes.
pub fn summary(alloc: Global, played: &Played) -> Result<Vec<u8>, AllocError>
    ensures { IfOk result (λ bytes. bytes.items ≡ summary_of (ended_of played.now)) }
{
    let mut out = String::new(alloc);
    push_answers(&mut out, played.last.as_slice())?;
    Ok(out.into_bytes())
}

/// The text of a record, in UTF-8: the line of its answer, then one for each row. Linear in it.
pub fn record_text(alloc: Global, reply: &Record) -> Result<Vec<u8>, AllocError>
    ensures { IfOk result (λ bytes. bytes.items ≡ record_text reply.now) }
{
    let mut out = String::new(alloc);
    push_record(&mut out, reply)?;
    Ok(out.into_bytes())
}

/// Adds the history: its length, then the lines of each entry.
fn push_history(out: &mut String, history: &History) -> Result<(), AllocError>
    ensures { OnOk result
        (string_bytes out.new ≡ string_bytes out.old ++ history_text history.now.entries) }
{
    let len = history.len();
    write!(out, "history {len}\n")?;
    push_entries(out, history)
}

/// Adds the lines of each entry.
fn push_entries(out: &mut String, history: &History) -> Result<(), AllocError>
    ensures { OnOk result
        (string_bytes out.new ≡ string_bytes out.old ++ entry_lines 1 history.now.entries) }
{
    for before in 0..history.len() {
        let position = before + 1;
        push_line(out, position, history.get(position))?;
    }
    Ok(())
}

/// Adds the records.
fn push_records(out: &mut String, replies: &[Record]) -> Result<(), AllocError>
    ensures { OnOk result
        (string_bytes out.new ≡ string_bytes out.old ++ flat_map record_text replies.now) }
{
    for reply in replies {
        push_record(out, reply)?;
    }
    Ok(())
}

/// Adds the records as a summary tells them.
fn push_answers(out: &mut String, replies: &[Record]) -> Result<(), AllocError>
    ensures { OnOk result
        (string_bytes out.new ≡ string_bytes out.old ++ flat_map summary_text replies.now) }
{
    for reply in replies {
        push_answer(out, &reply.answer)?;
    }
    Ok(())
}

/// Adds a record.
fn push_record(out: &mut String, reply: &Record) -> Result<(), AllocError>
    ensures { OnOk result (string_bytes out.new ≡ string_bytes out.old ++ record_text reply.now) }
{
    push_numbered(out, "", reply.line as u64)?;
    out.push_str(" ")?;
    push_prefix(out, &reply.answer)?;
    push_answer(out, &reply.answer)
}

/// Adds the prefix at which an answer holds, where it has one.
fn push_prefix(out: &mut String, answer: &Answer) -> Result<(), AllocError>
    ensures { OnOk result (string_bytes out.new ≡ string_bytes out.old ++ prefix_text answer.now) }
{
    let Some(at) = prefix(answer) else {
        return Ok(());
    };
    push_numbered(out, "at ", at)?;
    out.push_str(" ")
}

/// The prefix at which an answer holds, where it has one.
fn prefix(answer: &Answer) -> Option<u64>
    ensures { option_map_or (λ at. codes "at " ++ decimal at ++ codes " ") result []
        ≡ prefix_text answer.now }
{
    match answer {
        Answer::NotText { .. } => None,
        Answer::TooLong { .. } => None,
        Answer::Cancelled { .. } => None,
        Answer::Accepted { at } => Some(*at),
        Answer::Refused { at, .. } => Some(*at),
        Answer::Smart { at } => Some(*at),
        Answer::NotReady { at, .. } => Some(*at),
        Answer::Found { at, .. } => Some(*at),
    }
}

/// Adds an answer without its prefix.
fn push_answer(out: &mut String, answer: &Answer) -> Result<(), AllocError>
    ensures { OnOk result (string_bytes out.new ≡ string_bytes out.old ++ answer_text answer.now) }
{
    match answer {
        Answer::Accepted { .. } => out.push_str("accepted\n"),
        Answer::Refused { at: _, place, why } => push_refusal(out, *place, *why),
        Answer::NotText { at } => write!(out, "not-text {at}\n"),
        Answer::TooLong { count } => write!(out, "too-long {count}\n"),
        Answer::Smart { .. } => out.push_str("smart\n"),
        Answer::NotReady { at: _, path } => { write!(out, "not-ready {path}\n") }
        Answer::Found { at: _, found } => push_found(out, found),
        Answer::Cancelled { sighted } => {
            let attempts = sighted.attempts();
            write!(out, "cancelled {attempts}\n")
        }
    }
}

/// Adds a refusal, of a group with the place of the change that it refuses.
fn push_refusal(out: &mut String, place: Option<u32>, why: Refusal) -> Result<(), AllocError>
    ensures { OnOk result
        (string_bytes out.new ≡ string_bytes out.old
        ++ (codes "refused " ++ place_of_refusal place ++ why_text why ++ codes "\n")) }
{
    match place {
        None => write!(out, "refused {why}\n"),
        Some(place) => write!(out, "refused in {place} {why}\n"),
    }
}
