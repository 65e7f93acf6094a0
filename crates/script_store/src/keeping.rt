//! What is kept of the files of a workspace.
ghost use Rattle.std.specs.Prelude.{◌≡◌, ◌≤◌, ◌<◌, ◌+◌, IfOk, OnOk, length, option_map};
ghost use Rattle.std.specs.Option.{option_and_then};
ghost use Rattle.write_history.specs.World.{file_of};
ghost use Rattle.script_store.specs.Indexed.{entries_of, entry_of, with_file};

use dumb_mode::{FileKind, kind_of};
use ide_text::Text;
use ide_world::{State, content, mark, path};
use index_store::Store;
use replay::Replay;
use std::alloc::{AllocError, Global};

/// The store of a workspace: what is kept of its files, one after another.
pub(crate) fn kept_of(alloc: Global, replay: &Replay) -> Result<Store, AllocError>
    ensures { IfOk result (λ store. store ≡ entries_of replay.now) }
{
    let mut store = Store::empty(alloc);
    for place in 0..replay.made() as u32 {
        keep(&mut store, replay.state(), place + 1)?;
    }
    Ok(store)
}

/// Adds what is kept of the file with an id.
fn keep(store: &mut Store, state: &State, id: u32) -> Result<(), AllocError>
    requires { length store.old < 4294967295 }
    ensures kept { OnOk result (store.new ≡ with_file (file_of state.now.world id) store.old) }
    ensures few { OnOk result (length store.new ≤ length store.old + 1) }
{
    match entry_in(state, id) {
        Some((kind, text)) => store.add(kind, text),
        None => Ok(()),
    }
}

/// What is kept of the file with an id: its kind and content, where it is live, has a kind and is indexed at its present
/// stamp.
fn entry_in(state: &State, id: u32) -> Option<(FileKind, &Text)>
    ensures { option_map (λ kept. record { text = kept.1.now; kind = kept.0 }) result
        ≡ option_and_then entry_of (file_of state.now.world id) }
{
    let mark = mark(state, id)?;
    if mark.indexed != Some(mark.present) {
        return None;
    }
    Some((kind_of(path(state, id)?)?, content(state, id)?))
}
