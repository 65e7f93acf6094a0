//! The rows of a property key that was found.
ghost use Rattle.std.specs.Prelude.{◌≡◌, ◌/◌, None, IfOk, IfErr, map, length};
ghost use Rattle.write_history.specs.World.{lowest_unready};
ghost use Rattle.query_engine.specs.Looks.{rows_a_look, HasLooked, EndsEarly};
ghost use Rattle.query_engine.specs.Listed.{AreAhead, itself, place_found};
ghost use Rattle.query_engine.specs.Given.{GivesReply, key_reply};

use crate::answer::{AskRefusal, Finding, PlaceRow, RowList};
use crate::listed_file::ListedFile;
use crate::ready::ready;
use action_lock::Watch;
use ide_world::{KeyWalk, State};
use std::alloc::Global;

/// The answer to a question about a property key, by the walk over the places that it finds; refused where a file is
/// unready.
pub(crate) fn with_key<W: Watch>(
    alloc: Global,
    state: &State,
    found: KeyWalk<'_>,
    watch: &mut W,
) -> Result<Finding, AskRefusal>
    requires can { W.can_look watch.old }
    requires ahead { lowest_unready state.now.world ≡ None
        → AreAhead itself state.now.world None found }
    ensures again { W.can_look watch.new }
    ensures stays { W.stays watch.old watch.new }
    ensures answered { GivesReply W.looks W.sightings W.stays
        (key_reply state.now.world found.entry) result watch.old watch.new }
{
    ready(state)?;
    let rows = key_rows(alloc, state, found, watch)?;
    Ok(Finding::Keys { rows })
}

/// The rows of the places that are found, file by file. Lines and columns are found in one walk over each file's text.
fn key_rows<W: Watch>(
    alloc: Global,
    state: &State,
    found: KeyWalk<'_>,
    watch: &mut W,
) -> Result<RowList<PlaceRow>, AskRefusal>
    requires can { W.can_look watch.old }
    requires ahead { AreAhead itself state.now.world None found }
    ensures again { W.can_look watch.new }
    ensures stays { W.stays watch.old watch.new }
    ensures looked { HasLooked W.looks W.sightings W.stays result
        (length found.entry / rows_a_look) watch.old watch.new }
    ensures rows { IfOk result (λ rows. rows ≡ map (place_found state.now.world) found.entry) }
    ensures early { IfErr result EndsEarly }
{
    let mut rows = RowList::new(alloc);
    let mut before = None;
    for (id, at) in found {
        let mut file = ListedFile::continued(state, before, id);
        file.add_place(at, &mut rows, watch)?;
        before = Some(file);
    }
    Ok(rows)
}
