//! What the command of a line is answered where it adds nothing.
ghost use Rattle.std.specs.Prelude.{◌≡◌, true, IfOk, IsSome, None, Some, is_none};
ghost use Rattle.std.specs.List.{list_all};
ghost use Rattle.write_history.specs.World.{file_of, lowest_unready};
ghost use Rattle.write_history.specs.Fold.{list_refusal};
ghost use Rattle.write_history.specs.Changes.{is_edit};
ghost use Rattle.query_engine.specs.Listed.{path_at};
ghost use Rattle.query_engine.specs.Reply.{reply};
ghost use Rattle.script_lang.specs.Held.{IsOfLine};
ghost use Rattle.transcripts.specs.Serial.{answer_of};
ghost use Rattle.transcript_check.specs.Here.{answer_in, refused_in, settle_in, load_in};

use history_laws::laws::unready_files_have_an_order;
use ide_text::Name;
use queries::Query;
use query_engine::AskRefusal;
use replay::Replay;
use script_lang::{Command, Line};
use std::alloc::{AllocError, Global};
use transcripts::Answer;
use write_history::{Changes, MAX_ENTRIES, Refusal, is_lawful_path};

/// What the command of a line is answered here, where it adds nothing to the history; nothing was read for it. It costs
/// what the command does.
pub(crate) fn answer_here(
    alloc: Global,
    replay: &Replay,
    line: &Line,
) -> Result<Option<Answer>, AllocError>
    requires { IsOfLine line.now.command }
    ensures { IfOk result (λ answer. answer ≡ answer_in replay.now line.now.command) }
{
    match &line.command {
        Command::Change(change) => change_refusal(alloc, replay, &Changes::one(change.copy()?)),
        Command::Group(changes) => group_refusal(alloc, replay, changes),
        Command::Load { path } => Ok(Some(load_answer(replay, path))),
        Command::Settle => Ok(settle_answer(replay)),
        Command::Ask(query) => question_answer(alloc, replay, query),
        Command::Soft { attempts: _, query } => question_answer(alloc, replay, query),
    }
}

/// Why a change is refused, if it is.
fn change_refusal(
    alloc: Global,
    replay: &Replay,
    changes: &Changes,
) -> Result<Option<Answer>, AllocError>
    requires { list_all is_edit changes.now ≡ true }
    ensures { IfOk result
        (λ answer. answer
        ≡ refused_in replay.now (λ place. None) (list_refusal replay.now changes.now)) }
{
    let at = replay.entries();
    match replay.refusal(alloc, changes)? {
        None => Ok(None),
        Some(refusal) => Ok(Some(Answer::Refused {
            at,
            place: None,
            why: refusal.why,
        })),
    }
}

/// Why a group is refused, if it is, with the place of the change that is.
fn group_refusal(
    alloc: Global,
    replay: &Replay,
    changes: &Changes,
) -> Result<Option<Answer>, AllocError>
    requires { list_all is_edit changes.now ≡ true }
    ensures { IfOk result
        (λ answer. answer ≡ refused_in replay.now Some (list_refusal replay.now changes.now)) }
{
    let at = replay.entries();
    match replay.refusal(alloc, changes)? {
        None => Ok(None),
        Some(refusal) => Ok(Some(Answer::Refused {
            at,
            place: Some(refusal.place),
            why: refusal.why,
        })),
    }
}

/// What a load is answered for which nothing was read.
fn load_answer(replay: &Replay, path: &Name) -> Answer
    ensures { Some result ≡ load_in replay.now path.now }
{
    if is_lawful_path(path) {
        Answer::NotText { at: 0 }
    } else {
        Answer::Refused {
            at: replay.entries(),
            place: None,
            why: Refusal::BadPath,
        }
    }
}

/// What a settle is answered where it takes nothing in.
fn settle_answer(replay: &Replay) -> Option<Answer>
    ensures { result ≡ settle_in replay.now (lowest_unready replay.now) }
{
    let at = replay.entries();
    if replay.lowest_unready().is_none() {
        return Some(Answer::Smart { at });
    }
    if at < MAX_ENTRIES {
        return None;
    }
    Some(Answer::Refused {
        at,
        place: None,
        why: Refusal::HistoryFull,
    })
}

/// Whether a settle takes something in here.
pub(crate) fn settle_goes_on(replay: &Replay) -> bool
    ensures { result ≡ is_none (settle_in replay.now (lowest_unready replay.now)) }
{
    replay.lowest_unready().is_some() && replay.entries() < MAX_ENTRIES
}

/// The answer to a question.
fn question_answer(
    alloc: Global,
    replay: &Replay,
    query: &Query,
) -> Result<Option<Answer>, AllocError>
    ensures { IfOk result
        (λ answer. answer
        ≡ Some (answer_of replay.now replay.now.entries (reply replay.now query.now))) }
{
    unready_files_have_an_order();
    let at = replay.entries();
    match replay.ask(alloc, query) {
        Ok(found) => Ok(Some(Answer::Found { at, found })),
        Err(AskRefusal::NoSuchFile) => Ok(Some(Answer::Refused {
            at,
            place: None,
            why: Refusal::NoSuchFile,
        })),
        Err(AskRefusal::NotReady { file }) => Ok(Some(Answer::NotReady {
            at,
            path: path_of(replay, file)?,
        })),
        Err(AskRefusal::Cancelled) => unreachable!(),
        Err(AskRefusal::OutOfMemory) => Err(AllocError),
    }
}

/// A copy of the path of a live file.
fn path_of(replay: &Replay, file: u32) -> Result<Name, AllocError>
    requires { IsSome (file_of replay.now file) }
    ensures { IfOk result (λ copy. copy ≡ path_at replay.now file) }
{
    let Some(path) = replay.path_at(file) else {
        unreachable!()
    };
    path.copy()
}
