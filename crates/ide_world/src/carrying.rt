//! Carrying steps out: the one door by which files, documents and index data change, in step with one another.
ghost use Rattle.std.specs.Prelude.{◌≡◌, ◌≤◌, ◌<◌, ◌+◌, ◌*◌, ℕ, true, false, List, length, is_some, None, IsSome, IfSome, ◌==◌, if◌then◌else◌, [], ◌++◌, vec_len};
ghost use Rattle.std.specs.Vec.{vec_capacity};
ghost use Rattle.vfs_core.specs.FilesView.{row_of, id_at, HasRowRoom, HasPathRoom, KeepsRoom as KeepsFileRoom};
ghost use Rattle.overlay_index.specs.Layers.{base_of, overlay_of, IsSwept};
ghost use Rattle.ide_world.specs.Sweep.{Sweeps, SweepsAll};
ghost use Rattle.document_buf.specs.DocsView.{document_of, room_of};
ghost use Rattle.write_history.specs.World.{file_of, is_unready};
ghost use Rattle.write_history.specs.Effect.{max_entries};
ghost use Rattle.write_history.specs.Fold.{counted};
ghost use Rattle.ide_world.specs.RowEdits.{put_row};
ghost use Rattle.ide_world.specs.DocEdits.{IsWide, inserted_by};
ghost use Rattle.ide_world.specs.Step.{joined, drawn_by, after_step, after_steps};
ghost use Rattle.ide_world.specs.Ready.{first_unready, ids_of};
ghost use Rattle.ide_world.specs.Lawful.{AreLawful, IsLawfulStep};
ghost use Rattle.list_laws.specs.Rows.{one_if};
ghost use Rattle.ide_world.specs.StateView.{HasRoom};
ghost use Rattle.ide_world.specs.StepsReady.{IsReady, ids_of_gone};
ghost use Rattle.ide_world.specs.Room.{HasStepRoom, room_before_step, KeepsRoom};

use crate::apply::{Removed, apply_document, apply_index, apply_row};
use crate::{State, Step, Steps};
use document_buf::Docs;
use dumb_mode::{Mark, passes_filter};
use overlay_index::{Layers, Removed as RemovedData};
use vfs_core::{FileRow, Files};

/// Draws a stamp, where one is wanted.
fn draw_if(files: &mut Files, draws: bool)
    requires { files.old.next_stamp < u64.MAX }
    ensures next { files.new.next_stamp ≡ files.old.next_stamp + one_if draws }
    ensures rows { files.new.rows ≡ files.old.rows }
    ensures keeps { KeepsFileRoom files.old files.new }
{
    if draws {
        files.draw();
    }
}

/// Whether a file is live and unready.
fn is_unready_file(files: &Files, docs: &Docs, id: u32) -> bool
    ensures { result ≡ is_unready (joined (row_of files.now id) (document_of docs.now id)) }
{
    let Some(row) = files.by_id(id) else {
        return false;
    };
    let mark = Mark {
        file: id,
        java: passes_filter(&row.path),
        docs_open: docs.get(id).is_some(),
        present: row.stamp,
        indexed: row.indexed,
    };
    mark.is_unready()
}

/// Gives up the place of the path of a row that went, if one did, where no live file has it.
fn sweep_path(files: &mut Files, gone: &Option<FileRow>)
    ensures rows { files.new.rows ≡ files.old.rows }
    ensures next { files.new.next_stamp ≡ files.old.next_stamp }
    ensures swept { IfSome gone.now
        (λ row. id_at files.old row.path ≡ None → HasPathRoom files.new row.path → ⊥) }
{
    if let Some(row) = gone {
        files.sweep(&row.path);
    }
}

/// Gives up the places that a file has for index data that went, if any did, where it has no use for them.
fn sweep_index(layers: &mut Layers, id: u32, gone: &Option<RemovedData>)
    ensures base { (other : ℕ) → base_of layers.new other ≡ base_of layers.old other }
    ensures overlay { (other : ℕ) → overlay_of layers.new other ≡ overlay_of layers.old other }
    ensures swept { IfSome gone.now (λ parts. IsSwept id parts layers.old layers.new) }
{
    if let Some(gone) = gone {
        layers.sweep(id, gone);
    }
}

impl State {
    /// Carries one step out. It takes no memory.
    fn carry_out(&mut self, step: Step) -> Removed
        requires lawful { IsLawfulStep self.old.world step }
        requires room { HasStepRoom self.old.room step }
        requires rows { HasRowRoom self.old.room.files (one_if (is_some (put_row step.row))) }
        requires chars { IsSome (document_of self.old.room.docs step.id)
            → inserted_by step.doc ≤ room_of self.old.room.docs step.id }
        requires stamps { self.old.world.next_stamp + 1 ≤ 64 * self.old.world.entries + 1 }
        ensures id { result.id ≡ step.id }
        ensures world { self.new.world ≡ after_step self.old.world step }
        ensures keeps { KeepsRoom self.old.room self.new.room }
        ensures rows { (count : ℕ)
            → HasRowRoom self.old.room.files (one_if (is_some (put_row step.row)) + count)
            → HasRowRoom self.new.room.files count }
        ensures chars { (id n : ℕ) → (step.id ≡ id → IsWide n step.doc)
            → (IsSome (document_of self.old.room.docs id)
            → room_before_step id step n ≤ room_of self.old.room.docs id)
            → IsSome (document_of self.new.room.docs id) → n ≤ room_of self.new.room.docs id }
    {
        let id = step.id;
        draw_if(&mut self.files, step.draws);
        let row = apply_row(&mut self.files, id, step.row);
        apply_document(&mut self.docs, id, step.doc);
        let index = apply_index(&mut self.layers, id, step.index);
        let is_unready = is_unready_file(&self.files, &self.docs, id);
        self.unready.set(id, is_unready);
        Removed { id, row, index }
    }

    /// Carries steps out, one after another, and keeps what they took out. It takes no memory.
    fn carry_out_all(&mut self, steps: Vec<Step>, gone: &mut Vec<Removed>)
        requires ready { IsReady self.old steps.items }
        requires place { vec_len gone.old + vec_len steps ≤ vec_capacity gone.old }
        ensures world { self.new.world ≡ after_steps self.old.world steps.items }
        ensures ids { ids_of_gone gone.new.items ≡ ids_of_gone gone.old.items
            ++ ids_of steps.items }
    {
        for step in steps {
            gone.push_reserved(self.carry_out(step));
        }
    }

    /// Gives up the room of what went, where nothing needs it now.
    fn sweep(&mut self, gone: &Removed)
        ensures world { self.new.world ≡ self.old.world }
        ensures room { Sweeps gone.now self.old.room self.new.room }
    {
        sweep_path(&mut self.files, &gone.row);
        sweep_index(&mut self.layers, gone.id, &gone.index);
        self.unready.sweep(gone.id);
    }

    /// The same of all that went.
    fn sweep_all(&mut self, gone: &[Removed])
        ensures world { self.new.world ≡ self.old.world }
        ensures room { SweepsAll gone.now self.old.room self.new.room }
    {
        for taken in gone {
            self.sweep(taken);
        }
    }

    /// Counts one entry more.
    fn count_entry(&mut self)
        requires { self.old.world.entries < max_entries }
        ensures world { self.new.world ≡ counted self.old.world }
        ensures room { self.new.room ≡ self.old.room }
        ensures stamps { self.old.world.next_stamp ≤ 64 * self.old.world.entries + 1 }
    {
        self.entries += 1;
    }

    /// Whether a file is live and unready.
    fn is_unready(&self, id: u32) -> bool
        ensures { result ≡ is_unready (file_of self.now.world id) }
    {
        is_unready_file(&self.files, &self.docs, id)
    }

    /// The first of the files of which something went that is unready, if one is.
    fn first_unready(&self, gone: &[Removed]) -> Option<u32>
        ensures { result ≡ first_unready self.now.world (ids_of_gone gone.now) }
    {
        let mut left = gone;
        while let Some((taken, rest)) = left.split_first() {
            if self.is_unready(taken.id) {
                return Some(taken.id);
            }
            left = rest;
        }
        None
    }

    /// Carries out the steps of an entry. The answer is the first of their files that is unready now, if one is. It takes
    /// no memory.
    pub fn install(&mut self, steps: Steps) -> Option<u32>
        requires lawful { AreLawful self.old.world steps }
        requires room { HasRoom self.old steps }
        requires entries { self.old.world.entries < max_entries }
        ensures world { self.new.world ≡ counted (after_steps self.old.world steps) }
        ensures unready { result ≡ first_unready self.new.world (ids_of steps) }
    {
        self.count_entry();
        let Steps { steps, mut gone } = steps;
        self.carry_out_all(steps, &mut gone);
        self.sweep_all(&gone);
        self.first_unready(&gone)
    }
}
