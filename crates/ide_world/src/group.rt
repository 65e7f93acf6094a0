//! How changes go in: they are judged and made ready, room is made for them, then they are installed and can't fail.
ghost use Rattle.std.specs.Prelude.{◌≡◌, ◌<◌, ◌+◌, ℕ, List, [], ◌∷◌, true, Err, Some, IfOk, IfErr, IfSome, OnOk, length};
ghost use Rattle.std.specs.List.{list_all};
ghost use Rattle.write_history.specs.declared.change.Change.{Change};
ghost use Rattle.write_history.specs.declared.change.Change.TheVariants.{Intake};
ghost use Rattle.write_history.specs.World.{empty_world};
ghost use Rattle.write_history.specs.Changes.{AreFew, is_edit};
ghost use Rattle.write_history.specs.Effect.{refusal_of, max_entries};
ghost use Rattle.write_history.specs.Fold.{after_list};
ghost use Rattle.ide_world.specs.StateView.{HasRoom};
ghost use Rattle.ide_world.specs.Ready.{Makes, hinted, IsReadyFor, IsRefusalOf, IsListRefused};
ghost use Rattle.ide_world.specs.Task.{IsOfWorld};
ghost use Rattle.ide_world.specs.Drafted.{drafted_world, IsDraft, IsExtended};
ghost use Rattle.ide_world.specs.Alike.{AreAlike};
ghost use Rattle.ide_world.specs.Lawful.{AreWide};
ghost use Rattle.write_history.specs.declared.refusal.Refusal.TheVariants.{OutOfMemory};
ghost use Rattle.ide_world.specs.Builds.{Builds};

use crate::data::Made;
use crate::draft::Draft;
use crate::refusal::{intake_refusal, refusal};
use crate::{State, Step, Steps, documents, files};
use std::alloc::{AllocError, Global};
use std::marker::Model;
use write_history::{Change, Refusal};

/// Changes that are ready to go in, all memory for their data and texts taken: seen as the steps that make them.
#[derive(Drop)]
pub struct Ready {
    steps: Steps,
}

impl Model for Ready {
    ghost use Rattle.std.specs.Prelude.{List};
    ghost use Rattle.ide_world.specs.declared.step.Step.{Step};

    ghost Value = { List Step };

    ghost view = { λ r. r.steps };
}

/// The first refused change of a list.
#[derive(Clone, Copy, Debug, PartialEq, Eq)]
pub struct GroupRefusal {
    /// Its place in the list, from 1.
    pub place: u32,
    /// Why it is refused.
    pub why: Refusal,
}

/// The state without a file.
pub fn empty(alloc: Global) -> Result<State, AllocError>
    ensures { IfOk result (λ state. state.world ≡ empty_world) }
{
    Ok(State::empty(alloc))
}

/// Makes a change other than an intake ready, or gives the first reason to refuse it; that reason is found before
/// memory is asked for.
pub fn prepare(alloc: Global, state: &State, change: &Change) -> Result<Ready, Refusal>
    requires { is_edit change.now ≡ true }
    ensures ready { IfOk result (IsReadyFor state.now.world) }
    ensures makes { IfOk result (λ ready. Makes state.now.world ready (change.now ∷ [])) }
    ensures first { IfSome (refusal_of state.now.world change.now) (λ why. result ≡ Err why) }
    ensures refused { IfErr result (IsRefusalOf (refusal_of state.now.world change.now)) }
{
    let mut draft = Draft::new(alloc, state);
    match extend(alloc, &mut draft, change) {
        Ok(()) => made_ready(draft),
        Err(refusal) => {
            drop(draft);
            Err(refusal)
        }
    }
}

/// Makes a list of changes ready, each judged where the earlier ones lead, or gives the first refused one. Where memory runs out,
/// the first change isn't refused; a later one may be.
pub fn prepare_group(
    alloc: Global,
    state: &State,
    changes: &[Change],
) -> Result<Ready, GroupRefusal>
    requires few { AreFew changes.now }
    requires edits { list_all is_edit changes.now ≡ true }
    ensures ready { IfOk result (IsReadyFor state.now.world) }
    ensures makes { IfOk result (λ ready. Makes state.now.world ready changes.now) }
    ensures refused { IfErr result (IsListRefused state.now.world changes.now) }
{
    let mut draft = Draft::new(alloc, state);
    for (index, change) in changes.iter().enumerate() {
        if let Err(why) = extend(alloc, &mut draft, change) {
            return Err(GroupRefusal {
                place: index as u32 + 1,
                why,
            });
        }
    }
    match made_ready(draft) {
        Ok(ready) => Ok(ready),
        Err(why) => Err(GroupRefusal {
            place: changes.len() as u32,
            why,
        }),
    }
}

/// Makes the intake of index data ready, or gives the first reason to refuse it, before memory is asked for.
pub fn prepare_intake(alloc: Global, state: &State, made: Made) -> Result<Ready, Refusal>
    requires { IsOfWorld state.now.world
        (record { file = made.file; kind = made.kind; stamp = made.stamp; content = made.text }) }
    ensures ready { IfOk result (IsReadyFor state.now.world) }
    ensures makes { IfOk result
        (λ ready. Makes state.now.world ready (Intake made.file made.stamp ∷ [])) }
    ensures first { IfSome (refusal_of state.now.world (Intake made.file made.stamp))
        (λ why. result ≡ Err why) }
    ensures refused { IfErr result
        (IsRefusalOf (refusal_of state.now.world (Intake made.file made.stamp))) }
{
    let mut draft = Draft::new(alloc, state);
    if let Some(refusal) = intake_refusal(&draft, made.file, made.stamp) {
        drop(made);
        drop(draft);
        return Err(refusal);
    }
    match taken_in(&mut draft, made) {
        Ok(()) => made_ready(draft),
        Err(_) => {
            drop(draft);
            Err(Refusal::OutOfMemory)
        }
    }
}

/// Makes the room that the changes need.
pub fn reserve(state: &mut State, ready: &Ready) -> Result<(), AllocError>
    ensures room { OnOk result (HasRoom state.new ready.now) }
    ensures same { state.new.world ≡ state.old.world }
{
    state.reserve(&ready.steps)
}

/// Puts the changes in. The answer is the first of the changed files that is unready now, if one is. It takes no memory.
pub fn install(state: &mut State, ready: Ready) -> Option<u32>
    requires ready { IsReadyFor state.old.world ready }
    requires room { HasRoom state.old ready }
    ensures world { (changes : List Change) → Makes state.old.world ready changes
        → state.new.world ≡ after_list state.old.world changes }
    ensures unready { (changes : List Change) → Makes state.old.world ready changes
        → result ≡ hinted state.old.world changes }
{
    let Ready { steps } = ready;
    state.install(steps)
}

/// Makes one change more of a draft, or gives the first reason to refuse it.
fn extend(alloc: Global, draft: &mut Draft<'_>, change: &Change) -> Result<(), Refusal>
    requires edit { is_edit change.now ≡ true }
    requires few { length draft.old.steps < 64 }
    ensures accepted { OnOk result (refusal_of (drafted_world draft.old) change.now ≡ None) }
    ensures extended { OnOk result (IsExtended draft.old draft.new change.now) }
    ensures first { draft.old.steps ≡ []
        → IfSome (refusal_of (drafted_world draft.old) change.now) (λ why. result ≡ Err why) }
    ensures refused { IfErr result (IsRefusalOf (refusal_of (drafted_world draft.old) change.now)) }
{
    match refusal(draft, change) {
        Ok(None) => (),
        Ok(Some(why)) => return Err(why),
        Err(_) => return Err(Refusal::OutOfMemory),
    }
    match add(alloc, draft, change) {
        Ok(()) => Ok(()),
        Err(_) => Err(Refusal::OutOfMemory),
    }
}

/// Adds the step of an accepted change.
fn add(alloc: Global, draft: &mut Draft<'_>, change: &Change) -> Result<(), AllocError>
    requires edit { is_edit change.now ≡ true }
    requires few { length draft.old.steps < 64 }
    requires accepted { refusal_of (drafted_world draft.old) change.now ≡ None }
    ensures { OnOk result (IsExtended draft.old draft.new change.now) }
{
    let step = step_of(alloc, draft, change)?;
    draft.push(step)
}

/// Adds the step of an accepted intake.
fn taken_in(draft: &mut Draft<'_>, made: Made) -> Result<(), AllocError>
    requires few { length draft.old.steps < 64 }
    requires accepted { refusal_of (drafted_world draft.old) (Intake made.file made.stamp) ≡ None }
    requires of_world { IsOfWorld (drafted_world draft.old)
        (record { file = made.file; kind = made.kind; stamp = made.stamp; content = made.text }) }
    ensures { OnOk result (IsExtended draft.old draft.new (Intake made.file made.stamp)) }
{
    let step = files::taken_in(draft, made)?;
    draft.push(step)
}

/// The step of an accepted change.
fn step_of(alloc: Global, draft: &Draft<'_>, change: &Change) -> Result<Step, AllocError>
    requires edit { is_edit change.now ≡ true }
    requires accepted { refusal_of (drafted_world draft.now) change.now ≡ None }
    ensures { IfOk result (Builds (drafted_world draft.now) change.now) }
{
    match change {
        Change::Create { path, text } => files::created(draft, path, text),
        Change::Write { path, text } => files::written(alloc, draft, path, text),
        Change::Delete { path } => Ok(files::deleted(draft, path)),
        Change::OpenDoc { path } => documents::opened(alloc, draft, path),
        Change::Insert { path, at, text } => documents::inserted(draft, path, *at, text),
        Change::Erase { path, from, to } => Ok(documents::erased(draft, path, *from, *to)),
        Change::Commit { path } => documents::committed(alloc, draft, path),
        Change::Save { path } => documents::saved(alloc, draft, path),
        Change::CloseDoc { path } => documents::closed(draft, path),
        Change::Intake { .. } => unreachable!(),
        Change::Move { path, to } => files::moved(alloc, draft, path, to),
    }
}

/// The steps of a draft, whose documents have the room that they need.
fn made_ready(draft: Draft<'_>) -> Result<Ready, Refusal>
    ensures alike { IfOk result (AreAlike draft.entry.steps) }
    ensures wide { IfOk result AreWide }
    ensures refused { IfErr result (λ why. why ≡ OutOfMemory) }
    ensures draft { IsDraft draft.entry }
{
    match draft.into_steps() {
        Ok(steps) => Ok(Ready { steps }),
        Err(_) => Err(Refusal::OutOfMemory),
    }
}
