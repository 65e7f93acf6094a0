//! The tables of the rows that are shown.
ghost use Rattle.std.specs.Prelude.{◌≡◌, ◌==◌, ◌∷◌, [], ℕ, false, if◌then◌else◌, IfOk, OnOk};
ghost use Rattle.overlay_index.specs.Parts.{Parts, no_parts};
ghost use Rattle.overlay_index.specs.Layers.{parts_in, HasTableRoom, IsFilledTo, GivesUp, KeepsPlaces, IsKnownByRows};
ghost use Rattle.overlay_index.specs.Found.{values_of, found_to};

use crate::beside::beside;
use crate::data::FileData;
use crate::found::{KeyWalk, StubWalk, WordWalk};
use crate::word_masks::WordMasks;
use file_index::Inverted;
use ide_text::Name;
use property_index::PropertyKeys;
use std::alloc::{AllocError, Global};
use std::marker::Model;
use stub_index::{MethodNames, SuperNames, TypeNames};

/// A table for each kind of key.
#[derive(Drop)]
pub(crate) struct Tables {
    pub(crate) types: Inverted<TypeNames>,
    pub(crate) supers: Inverted<SuperNames>,
    pub(crate) methods: Inverted<MethodNames>,
    pub(crate) words: Inverted<WordMasks>,
    pub(crate) keys: Inverted<PropertyKeys>,
}

impl Model for Tables {
    ghost use Rattle.overlay_index.specs.Layers.{Shown};

    ghost Value = { Shown };

    ghost view = { λ t. record { types = t.types; supers = t.supers; methods = t.methods; words = t.words; keys = t.keys } };
}

impl Tables {
    /// No rows.
    pub(crate) fn new(alloc: Global) -> Tables
        ensures { (other : ℕ) → parts_in result other ≡ no_parts }
    {
        Tables {
            types: Inverted::new(alloc, TypeNames),
            supers: Inverted::new(alloc, SuperNames),
            methods: Inverted::new(alloc, MethodNames),
            words: Inverted::new(alloc, WordMasks),
            keys: Inverted::new(alloc, PropertyKeys),
        }
    }

    /// Makes room for a file's rows.
    pub(crate) fn reserve(&mut self, file: u32, parts: &FileData) -> Result<(), AllocError>
        ensures same { (other : ℕ) → parts_in self.new other ≡ parts_in self.old other }
        ensures room { OnOk result (HasTableRoom self.new file parts.now) }
        ensures keeps_room { (other : ℕ) (given : Parts) → HasTableRoom self.old other given
            → HasTableRoom self.new other given }
    {
        self.types.reserve(file, &parts.types)?;
        self.supers.reserve(file, &parts.supers)?;
        self.methods.reserve(file, &parts.methods)?;
        self.words.reserve(file, &parts.words)?;
        self.keys.reserve(file, &parts.keys)
    }

    /// Gives a file these rows, and gives back those that it had.
    pub(crate) fn swap(&mut self, file: u32, parts: FileData) -> FileData
        requires { HasTableRoom self.old file parts }
        ensures old { result ≡ parts_in self.old file }
        ensures each { (other : ℕ)
            → parts_in self.new other ≡ (if file == other then parts else parts_in self.old other) }
        ensures keeps_room { (other : ℕ) (given : Parts) → HasTableRoom self.old other given
            → HasTableRoom self.new other given }
    {
        let FileData {
            types,
            supers,
            methods,
            words,
            keys,
        } = parts;
        FileData {
            types: self.types.swap(file, types),
            supers: self.supers.swap(file, supers),
            methods: self.methods.swap(file, methods),
            words: self.words.swap(file, words),
            keys: self.keys.swap(file, keys),
        }
    }

    /// Takes a file's rows out, and gives them back.
    pub(crate) fn withdraw(&mut self, file: u32) -> FileData
        ensures old { result ≡ parts_in self.old file }
        ensures each { (other : ℕ)
            → parts_in self.new other
            ≡ (if file == other then no_parts else parts_in self.old other) }
        ensures keeps_room { (other : ℕ) (given : Parts) → HasTableRoom self.old other given
            → HasTableRoom self.new other given }
    {
        FileData {
            types: self.types.withdraw(file),
            supers: self.supers.withdraw(file),
            methods: self.methods.withdraw(file),
            words: self.words.withdraw(file),
            keys: self.keys.withdraw(file),
        }
    }

    /// Takes a file out from under the keys of these rows that none of its own has.
    pub(crate) fn release(&mut self, file: u32, parts: &FileData)
        ensures same { (other : ℕ) → parts_in self.new other ≡ parts_in self.old other }
        ensures keeps_room { (other : ℕ) (given : Parts) → (other == file) ≡ false
            → HasTableRoom self.old other given → HasTableRoom self.new other given }
        ensures given_up { GivesUp file (parts.now ∷ []) self.old self.new }
    {
        self.types.release(file, &parts.types);
        self.supers.release(file, &parts.supers);
        self.methods.release(file, &parts.methods);
        self.words.release(file, &parts.words);
        self.keys.release(file, &parts.keys);
    }

    /// Gives up the places of a file that has no rows.
    pub(crate) fn forget(&mut self, file: u32)
        ensures same { (other : ℕ) → parts_in self.new other ≡ parts_in self.old other }
        ensures keeps_room { (other : ℕ) (given : Parts) → (other == file) ≡ false
            → HasTableRoom self.old other given → HasTableRoom self.new other given }
        ensures places { KeepsPlaces self.old self.new }
        ensures forgotten { IsKnownByRows file self.new }
    {
        self.types.forget(file);
        self.supers.forget(file);
        self.methods.forget(file);
        self.words.forget(file);
        self.keys.forget(file);
    }

    /// The types under a name, file by file.
    pub(crate) fn type_rows<'a>(&'a self, name: &'a Name) -> StubWalk<'a>
        ensures { (last : ℕ) → IsFilledTo self.now last
            → result ≡ found_to (λ id. values_of name.now (parts_in self.now id).types) last }
    {
        StubWalk::of(self.types.rows(name))
    }

    /// The types that name a super, file by file.
    pub(crate) fn super_rows<'a>(&'a self, name: &'a Name) -> StubWalk<'a>
        ensures { (last : ℕ) → IsFilledTo self.now last
            → result ≡ found_to (λ id. values_of name.now (parts_in self.now id).supers) last }
    {
        StubWalk::of(self.supers.rows(name))
    }

    /// The methods under a name, file by file.
    pub(crate) fn method_rows<'a>(&'a self, name: &'a Name) -> StubWalk<'a>
        ensures { (last : ℕ) → IsFilledTo self.now last
            → result ≡ found_to (λ id. values_of name.now (parts_in self.now id).methods) last }
    {
        StubWalk::of(self.methods.rows(name))
    }

    /// The files that have a word, file by file.
    pub(crate) fn word_rows<'a>(&'a self, name: &'a Name) -> WordWalk<'a>
        ensures { (last : ℕ) → IsFilledTo self.now last
            → result ≡ found_to (λ id. values_of name.now (parts_in self.now id).words) last }
    {
        WordWalk::of(self.words.rows(name))
    }

    /// The offsets of a property key, file by file.
    pub(crate) fn key_rows<'a>(&'a self, name: &'a Name) -> KeyWalk<'a>
        ensures { (last : ℕ) → IsFilledTo self.now last
            → result ≡ found_to (λ id. values_of name.now (parts_in self.now id).keys) last }
    {
        KeyWalk::of(self.keys.rows(name))
    }

    /// The same rows once more.
    pub(crate) fn copy(&self) -> Result<Tables, AllocError>
        ensures { IfOk result
            (λ copy. (other : ℕ) → parts_in copy other ≡ parts_in self.now other) }
    {
        let made = self.types.copy()?;
        let made = beside(made, self.supers.copy())?;
        let made = beside(made, self.methods.copy())?;
        let made = beside(made, self.words.copy())?;
        let ((((types, supers), methods), words), keys) = beside(made, self.keys.copy())?;
        Ok(Tables {
            types,
            supers,
            methods,
            words,
            keys,
        })
    }
}
