//! The rows of declarations that were found.
ghost use Rattle.std.specs.Prelude.{◌≡◌, ◌/◌, None, IfOk, IfErr, IsSome, map, length};
ghost use Rattle.write_history.specs.World.{file_of, lowest_unready};
ghost use Rattle.query_engine.specs.Looks.{rows_a_look, HasLooked, EndsEarly};
ghost use Rattle.query_engine.specs.Listed.{AreAhead, row_found, stub_at};
ghost use Rattle.query_engine.specs.Given.{GivesReply, declared_reply};

use crate::answer::{AskRefusal, Finding, Row, RowList};
use crate::listed_file::ListedFile;
use crate::ready::ready;
use action_lock::Watch;
use ide_world::{State, StubWalk};
use std::alloc::Global;

/// The answer to a question about declarations, by the walk over those that it finds; refused where a file is unready.
pub(crate) fn declared<W: Watch>(
    alloc: Global,
    state: &State,
    found: StubWalk<'_>,
    watch: &mut W,
) -> Result<Finding, AskRefusal>
    requires can { W.can_look watch.old }
    requires ahead { lowest_unready state.now.world ≡ None
        → AreAhead stub_at state.now.world None found }
    ensures again { W.can_look watch.new }
    ensures stays { W.stays watch.old watch.new }
    ensures answered { GivesReply W.looks W.sightings W.stays
        (declared_reply state.now.world found.entry) result watch.old watch.new }
{
    ready(state)?;
    let rows = stub_rows(alloc, state, found, watch)?;
    Ok(Finding::Rows { rows })
}

/// The rows of the declarations that are found, file by file. Lines and columns are found in one walk over each
/// file's text.
fn stub_rows<W: Watch>(
    alloc: Global,
    state: &State,
    found: StubWalk<'_>,
    watch: &mut W,
) -> Result<RowList<Row>, AskRefusal>
    requires can { W.can_look watch.old }
    requires ahead { AreAhead stub_at state.now.world None found }
    ensures again { W.can_look watch.new }
    ensures stays { W.stays watch.old watch.new }
    ensures looked { HasLooked W.looks W.sightings W.stays result
        (length found.entry / rows_a_look) watch.old watch.new }
    ensures rows { IfOk result (λ rows. rows ≡ map (row_found state.now.world) found.entry) }
    ensures early { IfErr result EndsEarly }
{
    let mut rows = RowList::new(alloc);
    let mut before = None;
    for (id, stub) in found {
        let mut file = ListedFile::continued(state, before, id);
        file.add_stub(stub, &mut rows, watch)?;
        before = Some(file);
    }
    Ok(rows)
}
