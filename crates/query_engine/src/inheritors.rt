//! The types that come from a name.
ghost use Rattle.queries.specs.declared.query.Query.TheVariants.{Inheritors};
ghost use Rattle.query_engine.specs.Given.{RepliesTo};

use crate::answer::{AskRefusal, Finding};
use crate::level_rows::level_rows;
use crate::ready::ready;
use crate::search::search_types;
use action_lock::Watch;
use decl_parser::laws::{listings_are_lawful, names_are_identifiers, offsets_rise};
use ide_text::Name;
use ide_world::State;
use std::alloc::Global;

/// The types that come from a type with the name; refused where a file is unready.
pub(crate) fn inheritors<W: Watch>(
    alloc: Global,
    state: &State,
    name: &Name,
    watch: &mut W,
) -> Result<Finding, AskRefusal>
    requires { W.can_look watch.old }
    ensures again { W.can_look watch.new }
    ensures stays { W.stays watch.old watch.new }
    ensures replied { RepliesTo W.looks W.sightings W.stays state.now.world
        (Inheritors name.now) result watch.old watch.new }
{
    offsets_rise();
    listings_are_lawful();
    names_are_identifiers();
    ready(state)?;
    let reached = search_types(alloc, state, name, watch)?;
    let rows = level_rows(alloc, state, &reached)?;
    Ok(Finding::Inheritors { rows })
}
