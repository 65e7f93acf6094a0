//! The edits of a step, each carried out on the part of a state that it is about. None takes memory.
ghost use Rattle.std.specs.Prelude.{◌≡◌, ◌≢◌, ◌≤◌, ◌<◌, ◌+◌, ℕ, true, false, List, length, is_some, IsSome, IfSome, Some, ◌==◌, nat_lt, if◌then◌else◌};
ghost use Rattle.vfs_core.specs.Row.{IsStamped};
ghost use Rattle.vfs_core.specs.FilesView.{row_of, HasRowRoom, MayHave, KeepsRoom as KeepsFileRoom};
ghost use Rattle.document_buf.specs.DocsView.{document_of, room_of, open_of, HasPlace, Becomes};
ghost use Rattle.overlay_index.specs.Layers.{base_of, overlay_of, HasRoom as HasLayerRoom, HasPlace as HasLayerPlace, KeepsRoom as KeepsLayerRoom, KeepsPlace as KeepsLayerPlace};
ghost use Rattle.ide_world.specs.RowEdits.{edited_row, put_row};
ghost use Rattle.ide_world.specs.DocEdits.{edited_document, IsDocEditFit, IsWide, inserted_by};
ghost use Rattle.ide_world.specs.IndexEdits.{edited_index};
ghost use Rattle.list_laws.specs.Rows.{one_if};
ghost use Rattle.ide_world.specs.Room.{opens, room_before, brought, shows_on};
ghost use Rattle.ide_world.specs.State.{indexed_in};

use crate::{DocEdit, IndexEdit, RowEdit};
use document_buf::Docs;
use overlay_index::{Layers, Removed as RemovedData};
use vfs_core::{FileRow, Files};

/// What a step took out of a state, for the sweep.
#[derive(Drop)]
pub(crate) struct Removed {
    pub(crate) id: u32,
    pub(crate) row: Option<FileRow>,
    pub(crate) index: Option<RemovedData>,
}

/// Carries out the edit of a row, and gives the row that went.
pub(crate) fn apply_row(files: &mut Files, id: u32, edit: RowEdit) -> Option<FileRow>
    requires some { 0 < id }
    requires within { id ≤ length files.old.rows + 1 }
    requires made { length files.old.rows < id → IsSome (put_row edit) × HasRowRoom files.old 1 }
    requires path { IfSome (put_row edit) (λ row. MayHave files.old id row.path) }
    requires stamped { IfSome (put_row edit) (λ row. IsStamped files.old.next_stamp (Some row)) }
    ensures rows { (other : ℕ)
        → row_of files.new other
        ≡ (if id == other then edited_row edit (row_of files.old id)
        else row_of files.old other) }
    ensures made { length files.new.rows
        ≡ (if nat_lt (length files.old.rows) id then id else length files.old.rows) }
    ensures next { files.new.next_stamp ≡ files.old.next_stamp }
    ensures keeps { KeepsFileRoom files.old files.new }
{
    match edit {
        RowEdit::Keep => None,
        RowEdit::Put { row } => files.put(id, Some(row)),
        RowEdit::Remove => files.put(id, None),
    }
}

/// Carries out the edit of a document.
pub(crate) fn apply_document(docs: &mut Docs, id: u32, edit: DocEdit)
    requires fit { IsDocEditFit edit (document_of docs.old id) }
    requires place { opens edit ≡ true → HasPlace docs.old id }
    requires room { IsSome (document_of docs.old id) → inserted_by edit ≤ room_of docs.old id }
    ensures documents { Becomes docs.old docs.new id
        (edited_document edit (document_of docs.old id)) }
    ensures open { open_of docs.new + one_if (is_some (document_of docs.old id))
        ≡ open_of docs.old + one_if (is_some (edited_document edit (document_of docs.old id))) }
    ensures places { (other : ℕ) → HasPlace docs.old other → HasPlace docs.new other }
    ensures others { (other : ℕ) → (id == other) ≡ false
        → room_of docs.old other ≤ room_of docs.new other }
    ensures room { (n : ℕ) → IsWide n edit
        → (IsSome (document_of docs.old id) → room_before edit n ≤ room_of docs.old id)
        → IsSome (edited_document edit (document_of docs.old id)) → n ≤ room_of docs.new id }
{
    match edit {
        DocEdit::Keep => {}
        DocEdit::Open { doc } => docs.open_doc(id, doc),
        DocEdit::Insert { at, text } => docs.insert(id, at, text.as_text()),
        DocEdit::Erase { from, to } => docs.erase(id, from, to),
        DocEdit::Commit { text } => docs.commit(id, text),
        DocEdit::MarkSaved => {
            if docs.get(id).is_some() {
                docs.mark_saved(id);
            }
        }
        DocEdit::Replace { doc } => docs.replace_text(id, doc),
        DocEdit::Close => {
            if docs.get(id).is_some() {
                docs.close_doc(id);
            }
        }
    }
}

/// Carries out the edit of index data, and gives the data that went.
pub(crate) fn apply_index(layers: &mut Layers, id: u32, edit: IndexEdit) -> Option<RemovedData>
    requires room { IfSome (brought edit) (HasLayerRoom layers.old id) }
    requires place { shows_on edit ≡ true → HasLayerPlace layers.old id }
    ensures base { (other : ℕ)
        → base_of layers.new other
        ≡ (if id == other then (edited_index edit (indexed_in layers.old id)).base
        else base_of layers.old other) }
    ensures overlay { (other : ℕ)
        → overlay_of layers.new other
        ≡ (if id == other then (edited_index edit (indexed_in layers.old id)).overlay
        else overlay_of layers.old other) }
    ensures keeps { KeepsLayerRoom layers.old layers.new }
    ensures keeps_place { KeepsLayerPlace layers.old layers.new }
{
    match edit {
        IndexEdit::Keep => None,
        IndexEdit::SetBase { parts } => Some(layers.set_base(id, parts)),
        IndexEdit::SetOverlay { parts } => Some(layers.set_overlay(id, parts)),
        IndexEdit::ToOverlay => Some(layers.base_to_overlay(id)),
        IndexEdit::ToBase => Some(layers.overlay_to_base(id)),
        IndexEdit::Drop => Some(layers.drop_file(id)),
    }
}
