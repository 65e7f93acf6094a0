//! What callers read of a file.
ghost use Rattle.std.specs.Prelude.{◌≡◌, ◌+◌, length, is_some, option_map};
ghost use Rattle.std.specs.Option.{option_copied};
ghost use Rattle.write_history.specs.World.{file_of, next_id, shown_text, mark_of, is_open, is_unready, count_of};

use crate::State;
use dumb_mode::{Mark, passes_filter};
use ide_text::{Name, Text};

/// The id that the next file gets.
pub fn next_id(state: &State) -> u32
    ensures { result ≡ next_id state.now.world }
{
    state.made() as u32 + 1
}

/// The path of a live file.
pub fn path(state: &State, id: u32) -> Option<&Name>
    ensures { option_copied result ≡ option_map (λ f. f.path) (file_of state.now.world id) }
{
    Some(&state.row(id)?.path)
}

/// The content of a live file.
pub fn content(state: &State, id: u32) -> Option<&Text>
    ensures { option_copied result ≡ option_map (λ f. f.content) (file_of state.now.world id) }
{
    Some(state.row(id)?.content.as_text())
}

/// What a search sees of a live file: the committed text where it is open, else its content.
pub fn shown(state: &State, id: u32) -> Option<&Text>
    ensures { option_copied result ≡ option_map shown_text (file_of state.now.world id) }
{
    let row = state.row(id)?;
    match state.document(id) {
        Some(doc) => Some(doc.committed().as_text()),
        None => Some(row.content.as_text()),
    }
}

/// What decides whether a live file is unready.
pub fn mark(state: &State, id: u32) -> Option<Mark>
    ensures { result ≡ option_map (mark_of id) (file_of state.now.world id) }
{
    let row = state.row(id)?;
    Some(Mark {
        file: id,
        java: passes_filter(&row.path),
        docs_open: state.document(id).is_some(),
        present: row.stamp,
        indexed: row.indexed,
    })
}

/// How many files are live, how many documents are open, and how many files are unready. Constant time.
pub fn counts(state: &State) -> (u32, u32, u32)
    ensures live { result.0 ≡ count_of is_some state.now.world }
    ensures opened { result.1 ≡ count_of is_open state.now.world }
    ensures unready { result.2 ≡ count_of is_unready state.now.world }
{
    (
        state.live_count(),
        state.open_count(),
        state.unready_count(),
    )
}
