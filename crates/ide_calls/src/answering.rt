//! The answer to a question, at a moment of the workspace.
ghost use Rattle.std.specs.Prelude.{◌≡◌, ℕ, IfOk, IsSome};
ghost use Rattle.nonblocking_read.specs.Polled.{HasPolled};
ghost use Rattle.write_history.specs.World.{file_of};
ghost use Rattle.query_engine.specs.Listed.{path_at};
ghost use Rattle.query_engine.specs.Looks.{MayLook};
ghost use Rattle.ide_calls.specs.Replied.{IsRepliedIn};

use crate::replied::Replied;
use crate::reply::Reply;
use action_lock::Watch;
use history_laws::laws::unready_files_have_an_order;
use ide_text::Name;
use ide_world::{State, path};
use nonblocking_read::Stopped;
use queries::Query;
use query_engine::AskRefusal;
use std::alloc::{AllocError, Global};

/// Answers a question, unless the watch sees that the work is to end. It looks as often as the question may.
pub(crate) fn reply_by<W: Watch>(
    alloc: Global,
    state: &State,
    query: &Query,
    watch: &mut W,
) -> Result<Replied, Stopped>
    requires { W.can_look watch.old }
    ensures again { W.can_look watch.new }
    ensures stays { W.stays watch.old watch.new }
    ensures ok { IfOk result (IsRepliedIn state.now.world query.now) }
    ensures polled { (n : ℕ) × MayLook state.now.world query.now n
        × HasPolled W.looks W.sightings W.stays result n watch.old watch.new }
{
    unready_files_have_an_order();
    let reply = match query_engine::ask(alloc, state, query, watch) {
        Ok(answer) => Reply::Found(answer),
        Err(AskRefusal::NoSuchFile) => Reply::NoSuchFile,
        Err(AskRefusal::NotReady { file }) => match path_of(state, file) {
            Ok(path) => Reply::NotReady { file, path },
            Err(_) => return Err(Stopped::OutOfMemory),
        },
        Err(AskRefusal::Cancelled) => return Err(Stopped::Seen),
        Err(AskRefusal::OutOfMemory) => return Err(Stopped::OutOfMemory),
    };
    Ok(Replied {
        at: state.entries(),
        reply,
    })
}

/// A copy of the path of a live file.
fn path_of(state: &State, file: u32) -> Result<Name, AllocError>
    requires { IsSome (file_of state.now.world file) }
    ensures { IfOk result (λ copy. copy ≡ path_at state.now.world file) }
{
    let Some(path) = path(state, file) else {
        unreachable!()
    };
    path.copy()
}
