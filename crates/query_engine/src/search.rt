//! A search for the types that come from a name, level by level. Each name is asked for once.
ghost use Rattle.std.specs.Prelude.{◌≡◌, ◌+◌, ◌/◌, ◌%◌, ◌∷◌, [], None, IfOk, IfErr, OnOk, length};
ghost use Rattle.write_history.specs.World.{lowest_unready};
ghost use Rattle.query_engine.specs.Inheritors.{met_count};
ghost use Rattle.query_engine.specs.Reply.{types_of};
ghost use Rattle.query_engine.specs.Looks.{rows_a_look, HasLooked, EndsEarly};
ghost use Rattle.query_engine.specs.Search.{meet_all, HasAsked, AskedEach, IsFound};
ghost use Rattle.query_engine.specs.Paces.{Paces};

use crate::answer::AskRefusal;
use crate::asked_names::AskedNames;
use crate::looks::look_after_another;
use crate::reached::{NextName, Reached};
use action_lock::Watch;
use decl_parser::laws::offsets_rise;
use ide_text::Name;
use ide_world::{State, StubWalk};
use std::alloc::Global;

/// A search on its way.
#[derive(Drop)]
struct Search<'a> {
    asked: AskedNames<'a>,
    reached: Reached<'a>,
    /// How many types were met since the last look.
    met: u8,
}

/// The types that come from a name, where no file is unready. More levels than `u32` counts are more types than memory
/// holds.
pub(crate) fn search_types<'a, W: Watch>(
    alloc: Global,
    state: &'a State,
    name: &'a Name,
    watch: &mut W,
) -> Result<Reached<'a>, AskRefusal>
    requires can { W.can_look watch.old }
    requires smart { lowest_unready state.now.world ≡ None }
    ensures again { W.can_look watch.new }
    ensures stays { W.stays watch.old watch.new }
    ensures found { IfOk result
        (λ reached. IsFound (types_of state.now.world) name.now reached.seen) }
    ensures looked { HasLooked W.looks W.sightings W.stays result
        (met_count name.now (types_of state.now.world) / rows_a_look) watch.old watch.new }
    ensures early { IfErr result EndsEarly }
{
    offsets_rise();
    let reached = Reached::of(alloc, name)?;
    let mut search = Search {
        asked: AskedNames::new(alloc),
        reached,
        met: 0,
    };
    for level in 1..u32::MAX {
        let names = search.reached.take_next(alloc);
        if names.is_empty() {
            drop(names);
            drop(search.asked);
            return Ok(search.reached);
        }
        if let Err(refusal) = ask_each(state, level, names, &mut search, watch) {
            drop(search);
            return Err(refusal);
        }
    }
    drop(search);
    Err(AskRefusal::OutOfMemory)
}

/// Asks for names, one after another, at a level.
fn ask_each<'a, W: Watch>(
    state: &'a State,
    level: u32,
    names: Vec<NextName<'a>>,
    search: &mut Search<'a>,
    watch: &mut W,
) -> Result<(), AskRefusal>
    requires can { W.can_look watch.old }
    requires smart { lowest_unready state.now.world ≡ None }
    ensures again { W.can_look watch.new }
    ensures stays { W.stays watch.old watch.new }
    ensures each { OnOk result
        (AskedEach
        (types_of state.now.world) level names.entry.items search.old.asked search.old.reached
        search.new.asked search.new.reached) }
    ensures paced { Paces W.looks W.sightings W.stays
        (types_of state.now.world) names.entry.items result search.old.asked search.old.met
        search.new.asked search.new.met watch.old watch.new }
    ensures early { IfErr result EndsEarly }
{
    for name in names {
        ask_types(state, level, name.name(), search, watch)?;
    }
    Ok(())
}

/// Asks for the types that name a name, where it wasn't asked for before, and meets them at a level.
fn ask_types<'a, W: Watch>(
    state: &'a State,
    level: u32,
    name: &'a Name,
    search: &mut Search<'a>,
    watch: &mut W,
) -> Result<(), AskRefusal>
    requires can { W.can_look watch.old }
    requires smart { lowest_unready state.now.world ≡ None }
    ensures again { W.can_look watch.new }
    ensures stays { W.stays watch.old watch.new }
    ensures asked { OnOk result
        (HasAsked
        (types_of state.now.world) level name.now search.old.asked search.old.reached
        search.new.asked search.new.reached) }
    ensures paced { Paces W.looks W.sightings W.stays
        (types_of state.now.world) (name.now ∷ []) result search.old.asked search.old.met
        search.new.asked search.new.met watch.old watch.new }
    ensures early { IfErr result EndsEarly }
{
    if search.asked.add(name)? {
        let found = state.super_rows(name);
        meet_each(level, found, &mut search.reached, &mut search.met, watch)
    } else {
        Ok(())
    }
}

/// Meets types at a level, with a look after each 256.
fn meet_each<'a, W: Watch>(
    level: u32,
    found: StubWalk<'a>,
    reached: &mut Reached<'a>,
    met: &mut u8,
    watch: &mut W,
) -> Result<(), AskRefusal>
    requires { W.can_look watch.old }
    ensures again { W.can_look watch.new }
    ensures stays { W.stays watch.old watch.new }
    ensures reached { OnOk result (reached.new ≡ meet_all level reached.old found.entry) }
    ensures met { OnOk result
        (met.new % rows_a_look ≡ (met.old + length found.entry) % rows_a_look) }
    ensures looked { HasLooked W.looks W.sightings W.stays result
        ((met.old % rows_a_look + length found.entry) / rows_a_look) watch.old watch.new }
    ensures early { IfErr result EndsEarly }
{
    for (file, stub) in found {
        reached.meet(level, file, stub)?;
        look_after_another(met, watch)?;
    }
    Ok(())
}
