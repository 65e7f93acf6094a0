//! A draft: the state, read only, and the steps that the changes of a list made so far.
ghost use Rattle.std.specs.Prelude.{◌≡◌, ◌<◌, ◌≤◌, ◌≢◌, ◌+◌, ◌*◌, ◌^◌, if◌then◌else◌, ◌++◌, ◌∷◌, [], not, IfOk, IfSome, IfNone, OnOk, OnErr, IsSome, is_some, length, option_map};
ghost use Rattle.std.specs.Option.{option_copied};
ghost use Rattle.list_laws.specs.Rows.{one_if};
ghost use Rattle.write_history.specs.World.{file_of, id_at, document_at, count_of, is_open};
ghost use Rattle.write_history.specs.Effect.{is_uncommitted, document_len, is_unsaved};
ghost use Rattle.ide_world.specs.Step.{row_part, document_part, after_step};
ghost use Rattle.ide_world.specs.Lawful.{IsLawfulStep, AreWide};
ghost use Rattle.ide_world.specs.Alike.{AreAlike};
ghost use Rattle.ide_world.specs.Walk.{summary_of, is_open_after};

use crate::summary::Summary;
use crate::{DocEdit, State, Step, Steps, walk};
use ide_text::{Name, SharedText, Text};
use std::alloc::{AllocError, Global};
use std::marker::Model;
use vfs_core::FileRow;

/// The state, read only, and what a list of changes made of it so far. Its readers go over the steps, of which there
/// are at most 64.
#[derive(Drop)]
pub(crate) struct Draft<'a> {
    pub(crate) state: &'a State,
    pub(crate) steps: Steps,
    /// How many files were ever made.
    pub(crate) made: usize,
    /// How many documents are open.
    pub(crate) opened: u32,
    pub(crate) next_stamp: u64,
}

impl<'a> Model for Draft<'a> {
    ghost use Rattle.ide_world.specs.Drafted.{Drafted};

    ghost Value = { Drafted };

    ghost use Rattle.ide_world.specs.Drafted.{drafted, IsKept};

    ghost view = { drafted };

    ghost invariant = { IsKept };
}

/// A live file of a draft.
#[derive(Drop)]
pub(crate) struct Found<'a> {
    pub(crate) id: u32,
    pub(crate) row: &'a FileRow,
}

impl<'a> Draft<'a> {
    ghost use Rattle.ide_world.specs.Drafted.{drafted_world, IsDraft};
    ghost use Rattle.ide_world.specs.Walk.{summary_of};
    ghost use Rattle.ide_world.specs.Builds.{IsLiveAt};

    /// The draft of a state, with no step so far.
    pub(crate) fn new(alloc: Global, state: &'a State) -> Draft<'a>
        ensures base { result.base ≡ state.now.world }
        ensures steps { result.steps ≡ [] }
    {
        Draft {
            state,
            steps: Steps::new(alloc),
            made: state.made(),
            opened: state.open_count(),
            next_stamp: state.next_stamp(),
        }
    }

    /// The number of files that were ever made.
    pub(crate) fn made(&self) -> usize
        ensures value { result ≡ length (drafted_world self.now).files }
        ensures draft { IsDraft self.now }
    {
        self.made
    }

    /// The number of open documents.
    pub(crate) fn open_count(&self) -> u32
        ensures { result ≡ count_of is_open (drafted_world self.now) }
    {
        self.opened
    }

    /// The stamp that is drawn next.
    pub(crate) fn next_stamp(&self) -> u64
        ensures { result ≡ (drafted_world self.now).next_stamp }
    {
        self.next_stamp
    }

    /// The number of accepted entries.
    pub(crate) fn entries(&self) -> u64
        ensures { result ≡ (drafted_world self.now).entries }
    {
        let _ = &self.steps;
        self.state.entries()
    }

    /// The id of the live file at a path.
    pub(crate) fn id_of(&self, path: &Name) -> Option<u32>
        ensures { result ≡ id_at (drafted_world self.now) path.now }
    {
        walk::id(self.steps.as_slice(), path, self.state.id_of(path))
    }

    /// The row of a live file.
    pub(crate) fn row(&self, id: u32) -> Option<&FileRow>
        ensures value { option_copied result ≡ row_part (file_of (drafted_world self.now) id) }
        ensures draft { IsDraft self.now }
    {
        walk::row(self.steps.as_slice(), id, self.state.row(id))
    }

    /// The live file at a path.
    pub(crate) fn find(&self, path: &Name) -> Option<Found<'_>>
        ensures found { IfSome result
            (λ found. IsLiveAt (drafted_world self.now) path.now found.id found.row.now) }
        ensures none { IfNone result (id_at (drafted_world self.now) path.now ≡ None) }
        ensures draft { IsDraft self.now }
    {
        let _ = &self.steps;
        let id = self.id_of(path)?;
        let Some(row) = self.row(id) else {
            unreachable!()
        };
        Some(Found { id, row })
    }

    /// Whether a live file has the path.
    pub(crate) fn has_file_at(&self, path: &Name) -> bool
        ensures { result ≡ is_some (id_at (drafted_world self.now) path.now) }
    {
        self.id_of(path).is_some()
    }

    /// What the document of an id looks like, where it is open.
    pub(crate) fn summary(&self, id: u32) -> Option<Summary>
        ensures value { result
            ≡ option_map summary_of (document_part (file_of (drafted_world self.now) id)) }
        ensures short { IfSome result (λ summary. summary.len ≤ 65 * 1048576) }
    {
        let first = summary_of(self.state, id);
        walk::summary(self.steps.as_slice(), id, first)
    }

    /// What the document of the live file at a path looks like, where it is open.
    pub(crate) fn summary_at(&self, path: &Name) -> Option<Summary>
        ensures value { result
            ≡ option_map summary_of (document_at (drafted_world self.now) path.now) }
        ensures short { IfSome result (λ summary. summary.len ≤ 65 * 1048576) }
    {
        self.summary(self.id_of(path)?)
    }

    /// The committed text of an open document.
    pub(crate) fn committed(&self, id: u32) -> Option<&SharedText>
        ensures { option_copied result
            ≡ option_map (λ d. d.committed) (document_part (file_of (drafted_world self.now) id)) }
    {
        let first = committed_of(self.state, id);
        walk::committed(self.steps.as_slice(), id, first)
    }

    /// The text of an open document, made anew.
    pub(crate) fn text(&self, id: u32) -> Result<Option<Text>, AllocError>
        ensures { IfOk result
            (λ text. text
            ≡ option_map (λ d. d.text) (document_part (file_of (drafted_world self.now) id))) }
    {
        let first = text_of(self.state, id)?;
        walk::text(self.steps.as_slice(), id, first)
    }

    /// Whether the text of the document of an id isn't committed. It asks for memory only where a step changes a text
    /// of the document.
    pub(crate) fn is_uncommitted(&self, id: u32) -> Result<bool, AllocError>
        ensures value { IfOk result
            (λ answer. answer ≡ is_uncommitted (document_part (file_of (drafted_world self.now) id))) }
        ensures known { OnErr result (self.now.steps ≢ []) }
    {
        if !walk::edits_texts(self.steps.as_slice(), id) {
            return Ok(is_uncommitted(self.state, id));
        }
        match self.text(id) {
            Ok(Some(text)) => {
                let answer = match self.committed(id) {
                    Some(committed) => !text.is_same(committed.as_text()),
                    None => false,
                };
                drop(text);
                Ok(answer)
            }
            Ok(None) => Ok(false),
            Err(refusal) => Err(refusal),
        }
    }

    /// The text of an open document, to be kept: the committed one where it is that, else made anew.
    pub(crate) fn shared_text(
        &self,
        alloc: Global,
        id: u32,
        is_new: bool,
    ) -> Result<Option<SharedText>, AllocError>
        requires { is_new ≡ is_uncommitted (document_part (file_of (drafted_world self.now) id)) }
        ensures { IfOk result
            (λ text. text
            ≡ option_map (λ d. d.text) (document_part (file_of (drafted_world self.now) id))) }
    {
        if is_new {
            return match self.text(id)? {
                Some(text) => Ok(Some(SharedText::new(alloc, text)?)),
                None => Ok(None),
            };
        }
        match self.committed(id) {
            Some(text) => Ok(Some(text.share()?)),
            None => Ok(None),
        }
    }

    /// How many documents are open after a step.
    fn opened_after(&self, step: &Step) -> u32
        requires { IsLawfulStep (drafted_world self.now) step.now }
        ensures { result ≡ count_of is_open (after_step (drafted_world self.now) step.now) }
    {
        let _ = &self.steps;
        let was_open = self.summary(step.id).is_some();
        count_after(self.opened, was_open, is_open_after(&step.doc, was_open))
    }

    /// How many files were made after a step.
    fn made_after(&self, step: &Step) -> usize
        requires { IsLawfulStep (drafted_world self.now) step.now }
        ensures value { result ≡ length (after_step (drafted_world self.now) step.now).files }
        ensures few { result ≤ 65536 }
    {
        if step.id as usize > self.made {
            self.made + 1
        } else {
            self.made
        }
    }

    /// Adds a step.
    pub(crate) fn push(&mut self, step: Step) -> Result<(), AllocError>
        requires lawful { IsLawfulStep (drafted_world self.old) step }
        requires few { length self.old.steps < 64 }
        ensures ok { OnOk result
            (self.new ≡ record self.old { steps = self.old.steps ++ step ∷ [] }) }
        ensures draft { IsDraft self.old }
    {
        let made = self.made_after(&step);
        let opened = self.opened_after(&step);
        let next_stamp = later(self.next_stamp, step.draws);
        self.steps.push(step)?;
        self.made = made;
        self.opened = opened;
        self.next_stamp = next_stamp;
        Ok(())
    }

    /// The steps, each document that one brings with the room that it needs before the later ones.
    pub(crate) fn into_steps(self) -> Result<Steps, AllocError>
        ensures alike { IfOk result (AreAlike self.entry.steps) }
        ensures wide { IfOk result AreWide }
        ensures draft { IsDraft self.entry }
    {
        let Draft { mut steps, .. } = self;
        steps.widen()?;
        Ok(steps)
    }
}

/// What the document of an id looks like in the state.
fn summary_of(state: &State, id: u32) -> Option<Summary>
    ensures value { result ≡ option_map summary_of (document_part (file_of state.now.world id)) }
    ensures short { IfSome result (λ summary. summary.len ≤ 1048576) }
{
    let doc = state.document(id)?;
    Some(Summary {
        len: doc.len(),
        saved: doc.saved(),
    })
}

/// The committed text of a document of the state.
fn committed_of(state: &State, id: u32) -> Option<&SharedText>
    ensures { option_copied result
        ≡ option_map (λ d. d.committed) (document_part (file_of state.now.world id)) }
{
    Some(state.document(id)?.committed())
}

/// The text of a document of the state.
fn text_of(state: &State, id: u32) -> Result<Option<Text>, AllocError>
    ensures { IfOk result
        (λ text. text ≡ option_map (λ d. d.text) (document_part (file_of state.now.world id))) }
{
    match state.document(id) {
        Some(doc) => Ok(Some(doc.text()?)),
        None => Ok(None),
    }
}

/// Whether the text of a document of the state isn't committed.
fn is_uncommitted(state: &State, id: u32) -> bool
    ensures { result ≡ is_uncommitted (document_part (file_of state.now.world id)) }
{
    match state.document(id) {
        Some(doc) => !doc.is_committed(),
        None => false,
    }
}

/// The next stamp, where one is drawn or none.
fn later(stamp: u64, draws: bool) -> u64
    requires { stamp < 2 ^ 63 }
    ensures { result ≡ stamp + (if draws then 1 else 0) }
{
    if draws { stamp + 1 } else { stamp }
}

/// A number of open documents, where one was open or not and is or isn't now.
fn count_after(count: u32, was_open: bool, is_open: bool) -> u32
    requires some { one_if was_open ≤ count }
    requires few { count < 2 ^ 31 }
    ensures { result + one_if was_open ≡ count + one_if is_open }
{
    match (was_open, is_open) {
        (true, false) => count - 1,
        (false, true) => count + 1,
        _ => count,
    }
}

/// Whether a document is open after an edit.
fn is_open_after(edit: &DocEdit, was_open: bool) -> bool
    ensures { result ≡ is_open_after edit.now was_open }
{
    match edit {
        DocEdit::Open { .. } => true,
        DocEdit::Close => false,
        _ => was_open,
    }
}
