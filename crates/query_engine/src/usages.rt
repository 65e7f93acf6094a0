//! Where a name is used.
ghost use Rattle.std.specs.Prelude.{◌≡◌, ◌++◌, IfOk, IfErr, IsSome, OnOk, filter, length};
ghost use Rattle.std.specs.List.{flat_map};
ghost use Rattle.queries.specs.declared.query.Query.TheVariants.{Usages};
ghost use Rattle.write_history.specs.World.{file_of};
ghost use Rattle.query_engine.specs.Looks.{HasLooked, EndsEarly};
ghost use Rattle.query_engine.specs.Listed.{AreLive, has_code, uses_at, uses_found};
ghost use Rattle.query_engine.specs.Given.{RepliesTo};

use crate::answer::{AskRefusal, Finding, PlaceRow, RowList};
use crate::listed_file::ListedFile;
use crate::looks::look;
use crate::ready::ready;
use action_lock::Watch;
use ide_text::Name;
use ide_world::{State, WordWalk, shown};
use java_tokens::laws::masks_tell_uses;
use java_tokens::{Context, places};
use std::alloc::{AllocError, Global};

/// Where the name stands as an identifier in code; refused where a file is unready.
pub(crate) fn usages<W: Watch>(
    alloc: Global,
    state: &State,
    name: &Name,
    watch: &mut W,
) -> Result<Finding, AskRefusal>
    requires { W.can_look watch.old }
    ensures again { W.can_look watch.new }
    ensures stays { W.stays watch.old watch.new }
    ensures replied { RepliesTo W.looks W.sightings W.stays state.now.world
        (Usages name.now) result watch.old watch.new }
{
    masks_tell_uses();
    ready(state)?;
    let rows = use_rows(alloc, state, name, state.word_rows(name), watch)?;
    Ok(Finding::Usages {
        name: name.copy()?,
        rows,
    })
}

/// The rows of a name in the files in whose code it is found, with a look after each of these files. No text of another
/// file is read.
fn use_rows<W: Watch>(
    alloc: Global,
    state: &State,
    name: &Name,
    found: WordWalk<'_>,
    watch: &mut W,
) -> Result<RowList<PlaceRow>, AskRefusal>
    requires can { W.can_look watch.old }
    requires live { AreLive state.now.world found }
    ensures again { W.can_look watch.new }
    ensures stays { W.stays watch.old watch.new }
    ensures looked { HasLooked W.looks W.sightings W.stays result
        (length (filter has_code found.entry)) watch.old watch.new }
    ensures rows { IfOk result
        (λ rows. rows
        ≡ flat_map (uses_found state.now.world name.now) (filter has_code found.entry)) }
    ensures early { IfErr result EndsEarly }
{
    let mut rows = RowList::new(alloc);
    for (file, mask) in found {
        if Context::Code.is_in(mask) {
            add_uses(alloc, state, file, name, &mut rows)?;
            look(watch)?;
        }
    }
    Ok(rows)
}

/// Adds the rows of a name in a live file. Lines and columns are found in one walk over its text.
fn add_uses(
    alloc: Global,
    state: &State,
    id: u32,
    name: &Name,
    rows: &mut RowList<PlaceRow>,
) -> Result<(), AllocError>
    requires { IsSome (file_of state.now.world id) }
    ensures { OnOk result (rows.new ≡ rows.old ++ uses_at state.now.world name.now id) }
{
    let Some(text) = shown(state, id) else {
        unreachable!()
    };
    let places = places(alloc, text, name)?;
    let mut file = ListedFile::of(state, id);
    for at in &places {
        rows.push(file.place(*at)?)?;
    }
    Ok(())
}
