//! Making room for steps, so that carrying them out takes no memory.
ghost use Rattle.std.specs.Prelude.{◌≡◌, ◌≤◌, ◌<◌, ◌+◌, ℕ, true, List, length, IsSome, IfSome, IfOk, OnOk};
ghost use Rattle.vfs_core.specs.FilesView.{HasRowRoom, HasPathRoom, KeepsRoom as KeepsFileRoom};
ghost use Rattle.document_buf.specs.DocsView.{document_of, room_of, open_of, HasPlace, KeepsRoom as KeepsDocRoom, SameDocuments};
ghost use Rattle.overlay_index.specs.Layers.{base_of, overlay_of, HasRoom as HasLayerRoom, HasPlace as HasLayerPlace, KeepsRoom as KeepsLayerRoom, KeepsPlace as KeepsLayerPlace};
ghost use Rattle.ide_world.specs.RowEdits.{put_row};
ghost use Rattle.ide_world.specs.DocEdits.{inserted_by};
ghost use Rattle.ide_world.specs.Room.{opens, brought, shows_on, room_needed, HasStepRoom, HasRoomIn, KeepsRoom, KeepsCounts};
ghost use Rattle.ide_world.specs.StateView.{HasRoom};

use crate::steps::room_needed;
use crate::{DocEdit, IndexEdit, RowEdit, State, Step, Steps};
use document_buf::Docs;
use overlay_index::Layers;
use std::alloc::AllocError;
use vfs_core::Files;

/// Makes a place for the path of a row that is put.
fn reserve_path(files: &mut Files, edit: &RowEdit) -> Result<(), AllocError>
    ensures rows { files.new.rows ≡ files.old.rows }
    ensures next { files.new.next_stamp ≡ files.old.next_stamp }
    ensures keeps { KeepsFileRoom files.old files.new }
    ensures room { OnOk result (IfSome (put_row edit.now) (λ row. HasPathRoom files.new row.path)) }
{
    match edit {
        RowEdit::Put { row } => files.reserve_path(&row.path),
        RowEdit::Keep => Ok(()),
        RowEdit::Remove => Ok(()),
    }
}

/// Makes a place for a document that is opened, and the room that one needs into which steps insert.
fn reserve_document(docs: &mut Docs, steps: &[Step], step: &Step) -> Result<(), AllocError>
    ensures same { SameDocuments docs.old docs.new }
    ensures open { open_of docs.new ≡ open_of docs.old }
    ensures keeps { KeepsDocRoom docs.old docs.new }
    ensures place { OnOk result
        (opens step.now.doc ≡ true → 0 < step.now.id → HasPlace docs.new step.now.id) }
    ensures room { OnOk result
        (0 < step.now.id → 0 < inserted_by step.now.doc → IsSome (document_of docs.old step.now.id)
        → room_needed step.now.id steps.now ≤ room_of docs.new step.now.id) }
{
    if step.id == 0 {
        return Ok(());
    }
    match &step.doc {
        DocEdit::Open { .. } => docs.reserve(step.id, 0),
        DocEdit::Insert { .. } => { docs.reserve(step.id, room_needed(steps, step.id)?) }
        _ => Ok(()),
    }
}

/// Makes room for the index data that a step brings.
fn reserve_index(layers: &mut Layers, id: u32, edit: &IndexEdit) -> Result<(), AllocError>
    ensures base { (other : ℕ) → base_of layers.new other ≡ base_of layers.old other }
    ensures overlay { (other : ℕ) → overlay_of layers.new other ≡ overlay_of layers.old other }
    ensures keeps { KeepsLayerRoom layers.old layers.new }
    ensures keeps_place { KeepsLayerPlace layers.old layers.new }
    ensures room { OnOk result (IfSome (brought edit.now) (HasLayerRoom layers.new id)) }
    ensures place { OnOk result (shows_on edit.now ≡ true → HasLayerPlace layers.new id) }
{
    match edit {
        IndexEdit::SetBase { parts } => layers.reserve(id, parts),
        IndexEdit::SetOverlay { parts } => layers.reserve(id, parts),
        IndexEdit::ToOverlay => layers.reserve_place(id),
        _ => Ok(()),
    }
}

impl State {
    /// Makes room for so many rows more.
    fn reserve_rows(&mut self, count: usize) -> Result<(), AllocError>
        ensures world { self.new.world ≡ self.old.world }
        ensures room { OnOk result (HasRowRoom self.new.room.files count) }
    {
        self.files.reserve_rows(count)
    }

    /// Makes room for what one of several steps brings.
    fn reserve_step(&mut self, steps: &[Step], step: &Step) -> Result<(), AllocError>
        ensures world { self.new.world ≡ self.old.world }
        ensures keeps { KeepsRoom self.old.room self.new.room }
        ensures counts { KeepsCounts self.old.room self.new.room }
        ensures room { OnOk result (HasStepRoom self.new.room step.now) }
        ensures chars { OnOk result
            (0 < inserted_by step.now.doc → IsSome (document_of self.new.room.docs step.now.id)
            → room_needed step.now.id steps.now ≤ room_of self.new.room.docs step.now.id) }
    {
        reserve_path(&mut self.files, &step.row)?;
        reserve_document(&mut self.docs, steps, step)?;
        reserve_index(&mut self.layers, step.id, &step.index)?;
        self.unready.reserve(step.id)
    }

    /// Makes room for steps.
    fn reserve_all(&mut self, steps: &[Step]) -> Result<(), AllocError>
        ensures world { self.new.world ≡ self.old.world }
        ensures room { OnOk result (HasRoomIn self.new.room steps.now) }
    {
        self.reserve_rows(steps.len())?;
        for step in steps {
            self.reserve_step(steps, step)?;
        }
        Ok(())
    }

    /// Makes room for steps, so that `install` with them takes no memory. The world stays.
    pub fn reserve(&mut self, steps: &Steps) -> Result<(), AllocError>
        ensures room { OnOk result (HasRoom self.new steps.now) }
        ensures same { self.new.world ≡ self.old.world }
    {
        self.reserve_all(steps.as_slice())
    }
}
