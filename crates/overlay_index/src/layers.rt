//! Two layers of rows.
ghost use Rattle.std.specs.Prelude.{◌≡◌, ◌==◌, ◌++◌, ◌∷◌, [], ℕ, true, false, is_some, Some, None, if◌then◌else◌, option_to_list, IfOk, OnOk};
ghost use Rattle.overlay_index.specs.Parts.{Parts, no_parts};
ghost use Rattle.overlay_index.specs.Layers.{base_of, overlay_of, shown_of, covered_of, parts_in, IsShownTo};
ghost use Rattle.overlay_index.specs.Layers.{HasTableRoom, HasRoom, HasPlace, KeepsRoom, KeepsPlace, KeepsRoomBut, GivesUp, IsSwept};
ghost use Rattle.overlay_index.specs.Found.{values_of, found_to};

use crate::beside::beside;
use crate::data::FileData;
use crate::found::{KeyWalk, StubWalk, WordWalk};
use crate::hidden::Hidden;
use crate::removed::Removed;
use crate::tables::Tables;
use ide_text::Name;
use std::alloc::{AllocError, Global};
use std::marker::Model;

/// The rows of all files in two layers: each file has a base, which has no rows until one is set, and may have an
/// overlay, which hides the base.
///
/// The rows that are shown stand in one table for each kind of key; the base of a file that has an overlay lies
/// beside them. So a change costs the rows that it puts in and takes out, and a walk the rows that it gives.
#[derive(Drop)]
pub struct Layers {
    alloc: Global,
    tables: Tables,
    hidden: Hidden,
}

impl Model for Layers {
    ghost use Rattle.overlay_index.specs.Layers.{LayersView};

    ghost Value = { LayersView };

    ghost view = { λ l. record { shown = l.tables; hidden = l.hidden } };
}

impl Layers {
    /// No rows.
    pub fn new(alloc: Global) -> Layers
        ensures base { (other : ℕ) → base_of result other ≡ no_parts }
        ensures overlay { (other : ℕ) → overlay_of result other ≡ None }
    {
        Layers {
            alloc,
            tables: Tables::new(alloc),
            hidden: Hidden::new(alloc),
        }
    }

    /// Makes room to give a file these rows, as its base or as its overlay, so that it takes no memory. No row
    /// changes.
    pub fn reserve(&mut self, file: u32, parts: &FileData) -> Result<(), AllocError>
        ensures base { (other : ℕ) → base_of self.new other ≡ base_of self.old other }
        ensures overlay { (other : ℕ) → overlay_of self.new other ≡ overlay_of self.old other }
        ensures room { OnOk result (HasRoom self.new file parts.now) }
        ensures keeps_room { KeepsRoom self.old self.new }
        ensures keeps_place { KeepsPlace self.old self.new }
    {
        self.hidden.make_place(file)?;
        self.tables.reserve(file, parts)
    }

    /// Makes a place for the base of a file, so that what it shows may become its overlay without memory. No row
    /// changes.
    pub fn reserve_place(&mut self, file: u32) -> Result<(), AllocError>
        ensures base { (other : ℕ) → base_of self.new other ≡ base_of self.old other }
        ensures overlay { (other : ℕ) → overlay_of self.new other ≡ overlay_of self.old other }
        ensures place { OnOk result (HasPlace self.new file) }
        ensures keeps_room { KeepsRoom self.old self.new }
        ensures keeps_place { KeepsPlace self.old self.new }
    {
        self.hidden.make_place(file)
    }

    /// Gives a file these rows as its base. They are shown where the file has no overlay.
    pub fn set_base(&mut self, file: u32, parts: FileData) -> Removed
        requires { HasRoom self.old file parts }
        ensures gone { result ≡ base_of self.old file ∷ [] }
        ensures base { (other : ℕ)
            → base_of self.new other ≡ (if file == other then parts else base_of self.old other) }
        ensures overlay { (other : ℕ) → overlay_of self.new other ≡ overlay_of self.old other }
        ensures keeps_room { KeepsRoom self.old self.new }
        ensures keeps_place { KeepsPlace self.old self.new }
    {
        if self.hidden.has(file) {
            Removed {
                shown: None,
                hidden: self.hidden.put(file, Some(parts)),
            }
        } else {
            Removed {
                shown: Some(self.tables.swap(file, parts)),
                hidden: None,
            }
        }
    }

    /// Gives a file these rows as its overlay, which hides its base.
    pub fn set_overlay(&mut self, file: u32, parts: FileData) -> Removed
        requires { HasRoom self.old file parts }
        ensures gone { result ≡ option_to_list (overlay_of self.old file) }
        ensures base { (other : ℕ) → base_of self.new other ≡ base_of self.old other }
        ensures overlay { (other : ℕ)
            → overlay_of self.new other
            ≡ (if file == other then Some parts else overlay_of self.old other) }
        ensures keeps_room { KeepsRoom self.old self.new }
        ensures keeps_place { KeepsPlace self.old self.new }
    {
        let old = self.tables.swap(file, parts);
        if self.hidden.has(file) {
            Removed {
                shown: Some(old),
                hidden: None,
            }
        } else {
            Removed {
                shown: None,
                hidden: self.hidden.put(file, Some(old)),
            }
        }
    }

    /// Lets a file's overlay, if it has one, be its base from now on. The base that it hid goes.
    pub fn overlay_to_base(&mut self, file: u32) -> Removed
        ensures gone { result ≡ covered_of self.old file }
        ensures base { (other : ℕ)
            → base_of self.new other
            ≡ (if file == other then shown_of self.old file else base_of self.old other) }
        ensures overlay { (other : ℕ)
            → overlay_of self.new other
            ≡ (if file == other then None else overlay_of self.old other) }
        ensures keeps_room { KeepsRoom self.old self.new }
        ensures keeps_place { KeepsPlace self.old self.new }
    {
        Removed {
            shown: None,
            hidden: self.hidden.take(file),
        }
    }

    /// Lets what a file shows be its overlay from now on, over a base without rows. The base that an overlay hid goes.
    pub fn base_to_overlay(&mut self, file: u32) -> Removed
        requires { HasPlace self.old file }
        ensures gone { result ≡ covered_of self.old file }
        ensures base { (other : ℕ)
            → base_of self.new other
            ≡ (if file == other then no_parts else base_of self.old other) }
        ensures overlay { (other : ℕ)
            → overlay_of self.new other
            ≡ (if file == other then Some (shown_of self.old file)
            else overlay_of self.old other) }
        ensures keeps_room { KeepsRoom self.old self.new }
        ensures keeps_place { KeepsPlace self.old self.new }
    {
        let bare = FileData::new(self.alloc);
        Removed {
            shown: None,
            hidden: self.hidden.put(file, Some(bare)),
        }
    }

    /// Takes a file's base and overlay out.
    pub fn drop_file(&mut self, file: u32) -> Removed
        ensures gone { result ≡ shown_of self.old file ∷ covered_of self.old file }
        ensures base { (other : ℕ)
            → base_of self.new other
            ≡ (if file == other then no_parts else base_of self.old other) }
        ensures overlay { (other : ℕ)
            → overlay_of self.new other
            ≡ (if file == other then None else overlay_of self.old other) }
        ensures keeps_room { KeepsRoom self.old self.new }
        ensures keeps_place { KeepsPlace self.old self.new }
    {
        Removed {
            shown: Some(self.tables.withdraw(file)),
            hidden: self.hidden.take(file),
        }
    }

    /// Gives up the room that a file has under the keys of rows that went, and that it needs no more. No row changes.
    pub fn sweep(&mut self, file: u32, gone: &Removed)
        ensures base { (other : ℕ) → base_of self.new other ≡ base_of self.old other }
        ensures overlay { (other : ℕ) → overlay_of self.new other ≡ overlay_of self.old other }
        ensures keeps_room { KeepsRoomBut file self.old self.new }
        ensures swept { IsSwept file gone.now self.old self.new }
    {
        release_any(&mut self.tables, file, &gone.shown);
        release_any(&mut self.tables, file, &gone.hidden);
        self.tables.forget(file);
        self.hidden.sweep(file);
    }

    /// The types under a name, by the files and then by their offsets. It takes no memory.
    pub fn type_rows<'a>(&'a self, name: &'a Name) -> StubWalk<'a>
        ensures { (last : ℕ) → IsShownTo self.now last
            → result ≡ found_to (λ id. values_of name.now (shown_of self.now id).types) last }
    {
        self.tables.type_rows(name)
    }

    /// The types that name a super, by the files and then by their offsets. It takes no memory.
    pub fn super_rows<'a>(&'a self, name: &'a Name) -> StubWalk<'a>
        ensures { (last : ℕ) → IsShownTo self.now last
            → result ≡ found_to (λ id. values_of name.now (shown_of self.now id).supers) last }
    {
        self.tables.super_rows(name)
    }

    /// The methods under a name, by the files and then by their offsets. It takes no memory.
    pub fn method_rows<'a>(&'a self, name: &'a Name) -> StubWalk<'a>
        ensures { (last : ℕ) → IsShownTo self.now last
            → result ≡ found_to (λ id. values_of name.now (shown_of self.now id).methods) last }
    {
        self.tables.method_rows(name)
    }

    /// The files that have a word, each with the word's mask in it. It takes no memory.
    pub fn word_rows<'a>(&'a self, name: &'a Name) -> WordWalk<'a>
        ensures { (last : ℕ) → IsShownTo self.now last
            → result ≡ found_to (λ id. values_of name.now (shown_of self.now id).words) last }
    {
        self.tables.word_rows(name)
    }

    /// The offsets of a property key, by the files and then by themselves. It takes no memory.
    pub fn key_rows<'a>(&'a self, name: &'a Name) -> KeyWalk<'a>
        ensures { (last : ℕ) → IsShownTo self.now last
            → result ≡ found_to (λ id. values_of name.now (shown_of self.now id).keys) last }
    {
        self.tables.key_rows(name)
    }

    /// The same layers once more.
    pub fn copy(&self) -> Result<Layers, AllocError>
        ensures base { IfOk result
            (λ copy. (other : ℕ) → base_of copy other ≡ base_of self.now other) }
        ensures overlay { IfOk result
            (λ copy. (other : ℕ) → overlay_of copy other ≡ overlay_of self.now other) }
    {
        let tables = self.tables.copy()?;
        let (tables, hidden) = beside(tables, self.hidden.copy(self.alloc))?;
        Ok(Layers {
            alloc: self.alloc,
            tables,
            hidden,
        })
    }
}

/// Takes a file out from under the keys of these rows, if there are any, that none of its own has.
fn release_any(tables: &mut Tables, file: u32, gone: &Option<FileData>)
    ensures same { (other : ℕ) → parts_in tables.new other ≡ parts_in tables.old other }
    ensures keeps_room { (other : ℕ) (given : Parts) → (other == file) ≡ false
        → HasTableRoom tables.old other given → HasTableRoom tables.new other given }
    ensures given_up { GivesUp file (option_to_list gone.now) tables.old tables.new }
{
    if let Some(parts) = gone {
        tables.release(file, parts);
    }
}
