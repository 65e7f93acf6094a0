//! What a reply is told as.
ghost use Rattle.std.specs.Prelude.{◌≡◌};
ghost use Rattle.playing.specs.Answered.{reply_answer};

use shared_ide::{Replied, Reply};
use transcripts::Answer;
use write_history::Refusal;

/// The answer that tells a reply to a question.
pub(crate) fn answer_of(replied: Replied) -> Answer
    ensures { result ≡ reply_answer replied.at replied.reply }
{
    let at = replied.at;
    match replied.reply {
        Reply::Found(found) => Answer::Found { at, found },
        Reply::NoSuchFile => Answer::Refused {
            at,
            place: None,
            why: Refusal::NoSuchFile,
        },
        Reply::NotReady { file: _, path } => Answer::NotReady { at, path },
    }
}
