//! A question asked of a workspace.
ghost use Rattle.std.specs.Prelude.{◌≡◌, ◌≢◌, ◌≤◌, Ok, Err, IfOk, IfErr};
ghost use Rattle.action_lock.specs.Counts.{counted};
ghost use Rattle.queries.specs.declared.query.Query.TheVariants.{Status};
ghost use Rattle.query_engine.specs.Reply.{reply, IsRefusalOf};
ghost use Rattle.query_engine.specs.Looks.{HasLookedFor};
ghost use Rattle.query_engine.specs.Given.{RepliesTo};

use crate::answer::{AskRefusal, Finding};
use crate::inheritors::inheritors;
use crate::key_rows::with_key;
use crate::looks::{NoWatch, look};
use crate::outline::outline;
use crate::stub_rows::declared;
use crate::usages::usages;
use crate::word_rows::with_word;
use action_lock::Watch;
use decl_parser::laws::{listings_are_lawful, names_are_identifiers};
use ide_world::State;
use property_index::laws::keys_stand_in_the_text;
use queries::Query;
use std::alloc::Global;

/// Answers a question. It looks at the watch as it begins and after each 256 rows (for usages after each file of the
/// answer, for inheritors after each 256 types that the search meets), and ends where the watch sees that the work is to
/// end.
///
/// It costs the rows of the answer, and the texts of the files that they are of; the work of a status is constant.
pub fn ask<W: Watch>(
    alloc: Global,
    state: &State,
    query: &Query,
    watch: &mut W,
) -> Result<Finding, AskRefusal>
    requires { W.can_look watch.old }
    ensures again { W.can_look watch.new }
    ensures stays { W.stays watch.old watch.new }
    ensures looked { HasLookedFor W.looks W.sightings W.stays state.now.world query.now result
        watch.old watch.new }
    ensures first_look { counted (W.looks watch.old) ≤ W.looks watch.new }
    ensures answer { IfOk result (λ answer. reply state.now.world query.now ≡ Ok answer) }
    ensures refused { IfErr result (IsRefusalOf (reply state.now.world query.now)) }
{
    look(watch)?;
    answer(alloc, state, query, watch)
}

/// Answers a question, and can't be stopped.
pub fn ask_unwatched(alloc: Global, state: &State, query: &Query) -> Result<Finding, AskRefusal>
    ensures answer { IfOk result (λ answer. reply state.now.world query.now ≡ Ok answer) }
    ensures refused { IfErr result (IsRefusalOf (reply state.now.world query.now)) }
    ensures not_stopped { result ≢ Err AskRefusal.Cancelled }
{
    ask(alloc, state, query, &mut NoWatch::new())
}

/// Answers a question after the first look.
fn answer<W: Watch>(
    alloc: Global,
    state: &State,
    query: &Query,
    watch: &mut W,
) -> Result<Finding, AskRefusal>
    requires { W.can_look watch.old }
    ensures again { W.can_look watch.new }
    ensures stays { W.stays watch.old watch.new }
    ensures replied { RepliesTo W.looks W.sightings W.stays state.now.world query.now result
        watch.old watch.new }
{
    listings_are_lawful();
    names_are_identifiers();
    keys_stand_in_the_text();
    match query {
        Query::Class { name } => declared(alloc, state, state.type_rows(name), watch),
        Query::Supers { name } => declared(alloc, state, state.super_rows(name), watch),
        Query::Method { name } => declared(alloc, state, state.method_rows(name), watch),
        Query::Word { name } => with_word(alloc, state, state.word_rows(name), watch),
        Query::Usages { name } => usages(alloc, state, name, watch),
        Query::Inheritors { name } => inheritors(alloc, state, name, watch),
        Query::Key { key } => with_key(alloc, state, state.key_rows(key), watch),
        Query::Outline { path } => outline(alloc, state, path, watch),
        Query::Status => Ok(counts(state)),
    }
}

/// How many live files, open documents and unready files there are.
fn counts(state: &State) -> Finding
    ensures { Ok result ≡ reply state.now.world Status }
{
    Finding::Counts {
        files: state.live_count(),
        docs: state.open_count(),
        unready: state.unready_count(),
    }
}
