//! The declarations of one file.
ghost use Rattle.std.specs.Prelude.{◌≡◌, ◌/◌, Ok, IfOk, IfErr, IsSome, map, length};
ghost use Rattle.write_history.specs.World.{id_at, file_of};
ghost use Rattle.query_engine.specs.Reply.{row_of, listing_reply, IsRefusalOf};
ghost use Rattle.query_engine.specs.Looks.{rows_a_look, later_looks, HasLooked, EndsEarly};
ghost use Rattle.query_engine.specs.Listed.{path_at, stub_at, text_at, AreFrom};

use crate::answer::{AskRefusal, Finding, Row, RowList};
use crate::listed_file::ListedFile;
use action_lock::Watch;
use decl_parser::laws::names_are_identifiers;
use decl_parser::stubs;
use ide_text::Name;
use ide_world::{State, shown};
use java_tokens::tokens;
use std::alloc::Global;
use stub_tree::Stub;

/// The declarations of the live file at a path.
pub(crate) fn outline<W: Watch>(
    alloc: Global,
    state: &State,
    path: &Name,
    watch: &mut W,
) -> Result<Finding, AskRefusal>
    requires { W.can_look watch.old }
    ensures again { W.can_look watch.new }
    ensures stays { W.stays watch.old watch.new }
    ensures looked { HasLooked W.looks W.sightings W.stays result
        (later_looks
        (listing_reply state.now.world (id_at state.now.world path.now))) watch.old watch.new }
    ensures answer { IfOk result
        (λ answer. listing_reply state.now.world (id_at state.now.world path.now) ≡ Ok answer) }
    ensures refused { IfErr result
        (IsRefusalOf (listing_reply state.now.world (id_at state.now.world path.now))) }
{
    names_are_identifiers();
    let Some(id) = state.id_of(path) else {
        return Err(AskRefusal::NoSuchFile);
    };
    let Some(text) = shown(state, id) else {
        unreachable!()
    };
    let stubs = stubs(alloc, text, tokens(alloc, text)?)?;
    let rows = file_rows(alloc, state, id, stubs.as_slice(), watch)?;
    Ok(Finding::Outline { rows })
}

/// The rows of declarations of one live file.
fn file_rows<W: Watch>(
    alloc: Global,
    state: &State,
    id: u32,
    stubs: &[Stub],
    watch: &mut W,
) -> Result<RowList<Row>, AskRefusal>
    requires can { W.can_look watch.old }
    requires live { IsSome (file_of state.now.world id) }
    requires ahead { AreFrom stub_at (length (text_at state.now.world id)) 0 stubs.now }
    ensures again { W.can_look watch.new }
    ensures stays { W.stays watch.old watch.new }
    ensures looked { HasLooked W.looks W.sightings W.stays result
        (length stubs.now / rows_a_look) watch.old watch.new }
    ensures rows { IfOk result
        (λ rows. rows
        ≡ map (row_of id (path_at state.now.world id) (text_at state.now.world id)) stubs.now) }
    ensures early { IfErr result EndsEarly }
{
    let mut rows = RowList::new(alloc);
    let mut file = ListedFile::of(state, id);
    for stub in stubs {
        file.add_stub(stub, &mut rows, watch)?;
    }
    Ok(rows)
}
