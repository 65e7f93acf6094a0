//! The state of a workspace.
ghost use Rattle.std.specs.Prelude.{◌≡◌, ◌<◌, ℕ, List, length, true, OnOk, IfOk, IfSome, IfNone, None, option_map, is_some};
ghost use Rattle.std.specs.Option.{option_copied};
ghost use Rattle.write_history.specs.World.{empty_world, file_of, id_at, is_open, is_unready, lowest_unready, count_of};
ghost use Rattle.write_history.specs.Effect.{max_entries};
ghost use Rattle.write_history.specs.Fold.{counted};
ghost use Rattle.ide_world.specs.Step.{row_part, document_part, after_steps};
ghost use Rattle.ide_world.specs.Unready.{first_unready_from};
ghost use Rattle.ide_world.specs.Sound.{IsSoundWorld};
ghost use Rattle.ide_world.specs.Lawful.{AreLawful};
ghost use Rattle.ide_world.specs.StateView.{HasRoom};

use crate::Steps;
use crate::id_set::IdSet;
use document_buf::{Doc, Docs};
use ide_text::Name;
use overlay_index::Layers;
use std::alloc::{AllocError, Global};
use std::marker::Model;
use vfs_core::{FileRow, Files};

/// Files, documents and index data, seen by contracts as the world that they stand for.
#[derive(Drop)]
pub struct State {
    pub(crate) files: Files,
    pub(crate) docs: Docs,
    pub(crate) layers: Layers,
    /// The ids of the unready files are on.
    pub(crate) unready: IdSet,
    pub(crate) entries: u64,
}

impl Model for State {
    ghost use Rattle.ide_world.specs.StateView.{StateView};

    ghost Value = { StateView };

    ghost use Rattle.ide_world.specs.State.{held, IsSound};

    ghost view = { held };

    ghost invariant = { IsSound };
}

impl State {
    /// No file. It takes no memory.
    pub fn empty(alloc: Global) -> State
        ensures { result.world ≡ empty_world }
    {
        State {
            files: Files::new(alloc),
            docs: Docs::new(alloc),
            layers: Layers::new(alloc),
            unready: IdSet::new(alloc),
            entries: 0,
        }
    }

    /// How many files were ever made.
    pub fn made(&self) -> usize
        ensures value { result ≡ length self.now.world.files }
        ensures sound { IsSoundWorld self.now.world }
    {
        self.files.made()
    }

    /// The stamp that is drawn next.
    pub fn next_stamp(&self) -> u64
        ensures { result ≡ self.now.world.next_stamp }
    {
        self.files.next_stamp()
    }

    /// How many entries were accepted.
    pub fn entries(&self) -> u64
        ensures { result ≡ self.now.world.entries }
    {
        self.entries
    }

    /// How many files are live. Constant time, as the next two.
    pub fn live_count(&self) -> u32
        ensures { result ≡ count_of is_some self.now.world }
    {
        self.files.live()
    }

    /// How many documents are open.
    pub fn open_count(&self) -> u32
        ensures { result ≡ count_of is_open self.now.world }
    {
        self.docs.open_count()
    }

    /// How many files are unready.
    pub fn unready_count(&self) -> u32
        ensures { result ≡ count_of is_unready self.now.world }
    {
        self.unready.count()
    }

    /// The unready file with the lowest id. Logarithmic in their number, but for ids of changes that found no memory.
    pub fn lowest_unready(&self) -> Option<u32>
        ensures { result ≡ lowest_unready self.now.world }
    {
        self.unready.lowest_from(0)
    }

    /// The unready file with the lowest id that isn't below `from`, else the unready file with the lowest id. It takes as long.
    pub fn first_unready_from(&self, from: u32) -> Option<u32>
        ensures value { result ≡ first_unready_from self.now.world from }
        ensures unready { IfSome result (λ id. is_unready (file_of self.now.world id) ≡ true) }
        ensures none { IfNone result (lowest_unready self.now.world ≡ None) }
    {
        let found = self.unready.lowest_from(from);
        found.or(self.unready.lowest_from(0))
    }

    /// The row of a live file. Constant time.
    pub fn row(&self, id: u32) -> Option<&FileRow>
        ensures { option_copied result ≡ row_part (file_of self.now.world id) }
    {
        self.files.by_id(id)
    }

    /// The document of a file, where it is open. Constant time.
    pub fn document(&self, id: u32) -> Option<&Doc>
        ensures { option_map (λ d. d.now.document) result
            ≡ document_part (file_of self.now.world id) }
    {
        self.docs.get(id)
    }

    /// The id of the live file at a path. Logarithmic in the number of paths.
    pub fn id_of(&self, path: &Name) -> Option<u32>
        ensures { result ≡ id_at self.now.world path.now }
    {
        self.files.by_path(path)
    }

    /// The same state once more. Linear in it.
    pub fn copy(&self) -> Result<State, AllocError>
        ensures { IfOk result (λ copy. copy.world ≡ self.now.world) }
    {
        Ok(State {
            unready: self.unready.copy()?,
            docs: self.docs.copy()?,
            files: self.files.copy()?,
            layers: self.layers.copy()?,
            entries: self.entries,
        })
    }
}
