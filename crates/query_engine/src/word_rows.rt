//! The rows of a word that was found.
ghost use Rattle.std.specs.Prelude.{◌≡◌, ◌+◌, ◌/◌, ◌++◌, ◌∷◌, [], None, IfOk, IfErr, OnOk, map, length};
ghost use Rattle.write_history.specs.World.{lowest_unready};
ghost use Rattle.query_engine.specs.Looks.{rows_a_look, looks_at, HasLooked, EndsEarly};
ghost use Rattle.query_engine.specs.Listed.{AreLive, word_found};
ghost use Rattle.query_engine.specs.Given.{GivesReply, word_reply};

use crate::answer::{AskRefusal, Finding, RowList, WordRow};
use crate::looks::add_row;
use crate::ready::ready;
use action_lock::Watch;
use ide_text::Name;
use ide_world::{State, WordWalk, path};
use std::alloc::Global;

/// The answer to a question about a word, by the walk over the files that have it; refused where a file is unready.
pub(crate) fn with_word<W: Watch>(
    alloc: Global,
    state: &State,
    found: WordWalk<'_>,
    watch: &mut W,
) -> Result<Finding, AskRefusal>
    requires can { W.can_look watch.old }
    requires live { lowest_unready state.now.world ≡ None → AreLive state.now.world found }
    ensures again { W.can_look watch.new }
    ensures stays { W.stays watch.old watch.new }
    ensures answered { GivesReply W.looks W.sightings W.stays
        (word_reply state.now.world found.entry) result watch.old watch.new }
{
    ready(state)?;
    let rows = word_rows(alloc, state, found, watch)?;
    Ok(Finding::Words { rows })
}

/// The rows of the files in which a word is found.
fn word_rows<W: Watch>(
    alloc: Global,
    state: &State,
    found: WordWalk<'_>,
    watch: &mut W,
) -> Result<RowList<WordRow>, AskRefusal>
    requires can { W.can_look watch.old }
    requires live { AreLive state.now.world found }
    ensures again { W.can_look watch.new }
    ensures stays { W.stays watch.old watch.new }
    ensures looked { HasLooked W.looks W.sightings W.stays result
        (length found.entry / rows_a_look) watch.old watch.new }
    ensures rows { IfOk result (λ rows. rows ≡ map (word_found state.now.world) found.entry) }
    ensures early { IfErr result EndsEarly }
{
    let mut rows = RowList::new(alloc);
    for (file, mask) in found {
        let Some(path) = path(state, file) else {
            unreachable!()
        };
        add_word(file, path, mask, &mut rows, watch)?;
    }
    Ok(rows)
}

/// Puts the row of a file at the end, and looks where the rows are a full number of 256 then.
fn add_word<W: Watch>(
    file: u32,
    path: &Name,
    mask: u8,
    rows: &mut RowList<WordRow>,
    watch: &mut W,
) -> Result<(), AskRefusal>
    requires { W.can_look watch.old }
    ensures again { W.can_look watch.new }
    ensures stays { W.stays watch.old watch.new }
    ensures added { OnOk result
        (rows.new ≡ rows.old ++ record { file = file; path = path.now; mask = mask } ∷ []) }
    ensures looked { HasLooked W.looks W.sightings W.stays result
        (looks_at (length rows.old + 1)) watch.old watch.new }
    ensures early { IfErr result EndsEarly }
{
    let path = path.copy()?;
    add_row(rows, WordRow { file, path, mask }, watch)
}
