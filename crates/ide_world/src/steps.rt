//! A list of steps.
ghost use Rattle.std.specs.Prelude.{◌≡◌, ◌<◌, ◌≤◌, [], ◌∷◌, ◌++◌, IfOk, OnOk, OnErr, length, vec_len, vec_capacity};
ghost use Rattle.ide_world.specs.Room.{room_before, room_needed};
ghost use Rattle.ide_world.specs.DocEdits.{IsWide};
ghost use Rattle.ide_world.specs.Lawful.{AreWide};
ghost use Rattle.ide_world.specs.Alike.{bare_step, AreAlike};

use crate::apply::Removed;
use crate::{DocEdit, Step};
use std::alloc::{AllocError, Global};
use std::marker::Model;

/// The most steps of a list that is carried out.
pub const MAX_STEPS: usize = 64;

/// Steps, in order, and a place for what each of them takes out of a state.
#[derive(Drop)]
pub struct Steps {
    pub(crate) steps: Vec<Step>,
    pub(crate) gone: Vec<Removed>,
}

impl Model for Steps {
    ghost use Rattle.std.specs.Prelude.{List, [], ◌≡◌, ◌≤◌};
    ghost use Rattle.std.specs.Vec.{vec_len, vec_capacity};
    ghost use Rattle.ide_world.specs.declared.step.Step.{Step};

    ghost Value = { List Step };

    ghost view = { λ s. s.steps.items };

    ghost invariant = { λ s. (s.gone.items ≡ []) × (vec_len s.steps ≤ vec_capacity s.gone) };
}

impl Steps {
    /// No step. It takes no memory.
    pub fn new(alloc: Global) -> Steps
        ensures { result ≡ [] }
    {
        Steps {
            steps: Vec::new(alloc),
            gone: Vec::new(alloc),
        }
    }

    /// One step more.
    pub fn push(&mut self, step: Step) -> Result<(), AllocError>
        ensures ok { OnOk result (self.new ≡ self.old ++ step ∷ []) }
        ensures err { OnErr result (self.new ≡ self.old) }
    {
        match make_room(&mut self.steps, &mut self.gone) {
            Ok(()) => {
                self.steps.push_reserved(step);
                Ok(())
            }
            Err(refusal) => {
                drop(step);
                Err(refusal)
            }
        }
    }

    /// The steps.
    pub fn as_slice(&self) -> &[Step]
        ensures { result.now ≡ self.now }
    {
        &self.steps
    }

    /// How many there are.
    pub fn len(&self) -> usize
        ensures { result ≡ length self.now }
    {
        self.steps.len()
    }

    /// Gives each document that a step brings the room that it needs before the later steps, from the last step on.
    pub(crate) fn widen(&mut self) -> Result<(), AllocError>
        ensures alike { OnOk result (AreAlike self.old self.new) }
        ensures wide { OnOk result (AreWide self.new) }
    {
        let mut at = self.steps.len();
        while at > 0 {
            let id = self.steps[at - 1].id;
            let count = room_needed(&self.steps[at..], id)?;
            at -= 1;
            widen_document(&mut self.steps[at], count)?;
        }
        Ok(())
    }
}

/// Makes room for one step more, at first for no other, since most lists have one; and for what the steps take out.
fn make_room(steps: &mut Vec<Step>, gone: &mut Vec<Removed>) -> Result<(), AllocError>
    requires gone { (gone.old.items ≡ []) × (vec_len steps.old ≤ vec_capacity gone.old) }
    ensures items { steps.new.items ≡ steps.old.items }
    ensures len { vec_len steps.new ≡ vec_len steps.old }
    ensures gone { (gone.new.items ≡ []) × (vec_len steps.new ≤ vec_capacity gone.new) }
    ensures room { OnOk result
        ((vec_len steps.new < vec_capacity steps.new) × (vec_len steps.new < vec_capacity gone.new)) }
{
    if steps.is_empty() {
        steps.reserve_exact(1)?;
    } else {
        steps.reserve(1)?;
    }
    gone.reserve_exact(steps.capacity())
}

/// Makes room for so many characters more in the document that a step brings, if it brings one.
fn widen_document(step: &mut Step, count: u32) -> Result<(), AllocError>
    ensures alike { bare_step step.new ≡ bare_step step.old }
    ensures wide { OnOk result (IsWide count step.new.doc) }
{
    match &mut step.doc {
        DocEdit::Open { doc } => doc.reserve(count),
        DocEdit::Replace { doc } => doc.reserve(count),
        _ => Ok(()),
    }
}

/// How much room the document of a file needs before steps: as much as it grows by at most, so never more than a text
/// may have.
pub(crate) fn room_needed(steps: &[Step], id: u32) -> Result<u32, AllocError>
    ensures { IfOk result (λ count. count ≡ room_needed id steps.now) }
{
    let mut count: u32 = 0;
    let mut at = steps.len();
    while at > 0 {
        at -= 1;
        if steps[at].id == id {
            count = room_before(&steps[at].doc, count)?;
        }
    }
    Ok(count)
}

/// How much room a document needs before an edit, if it needs so much behind it.
fn room_before(edit: &DocEdit, count: u32) -> Result<u32, AllocError>
    ensures { IfOk result (λ before. before ≡ room_before edit.now count) }
{
    match edit {
        DocEdit::Insert { text, .. } => text.len().checked_add(count).ok_or(AllocError),
        DocEdit::Erase { from, to } => Ok(count.saturating_sub(to.saturating_sub(*from))),
        DocEdit::Open { .. } => Ok(0),
        DocEdit::Replace { .. } => Ok(0),
        DocEdit::Close => Ok(0),
        _ => Ok(count),
    }
}
