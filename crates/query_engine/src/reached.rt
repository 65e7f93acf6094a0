//! How far a search for types has come.
ghost use Rattle.std.specs.Prelude.{◌≡◌, ◌∷◌, [], OnOk, IfOk};
ghost use Rattle.query_engine.specs.Search.{meet};

use ide_text::Name;
use std::alloc::{AllocError, Global};
use std::collections::BTreeMap;
use std::marker::Model;
use std::mem;
use stub_tree::Stub;

/// A type that was found, with its level.
#[derive(Drop)]
pub(crate) struct LeveledStub<'a> {
    level: u32,
    stub: &'a Stub,
}

impl<'a> Model for LeveledStub<'a> {
    ghost use Rattle.std.specs.Prelude.{ℕ};
    ghost use Rattle.stub_tree.specs.declared.stub.Stub.{Stub};

    ghost Value = { ℕ × Stub };

    ghost view = { λ f. (f.level, f.stub.now) };
}

impl<'a> LeveledStub<'a> {
    /// Its level.
    pub(crate) fn level(&self) -> u32
        ensures { result ≡ self.now.0 }
    {
        self.level
    }

    /// Its declaration.
    pub(crate) fn stub(&self) -> &'a Stub
        ensures { result.now ≡ self.now.1 }
    {
        self.stub
    }
}

/// A name that types are asked for by.
#[derive(Drop)]
pub(crate) struct NextName<'a> {
    name: &'a Name,
}

impl<'a> Model for NextName<'a> {
    ghost use Rattle.std.specs.Prelude.{List, ℕ};

    ghost Value = { List ℕ };

    ghost view = { λ n. n.name.now };
}

impl<'a> NextName<'a> {
    /// The name.
    pub(crate) fn name(&self) -> &'a Name
        ensures { result.now ≡ self.now }
    {
        self.name
    }
}

/// The types that were found, by file and offset, and the names that are to be asked for next.
#[derive(Drop)]
pub(crate) struct Reached<'a> {
    seen: BTreeMap<(u32, u32), LeveledStub<'a>>,
    next: Vec<NextName<'a>>,
}

impl<'a> Model for Reached<'a> {
    ghost use Rattle.query_engine.specs.Search.{Reached as Seen};

    ghost Value = { Seen };

    ghost view = { λ r. record { seen = r.seen.entries; next = r.next.items } };
}

impl<'a> Reached<'a> {
    /// No type yet, and one name.
    pub(crate) fn of(alloc: Global, name: &'a Name) -> Result<Reached<'a>, AllocError>
        ensures { IfOk result (λ reached. reached ≡ record { seen = []; next = name.now ∷ [] }) }
    {
        let mut next = Vec::new(alloc);
        next.push(NextName { name })?;
        Ok(Reached {
            seen: BTreeMap::new(alloc),
            next,
        })
    }

    /// Meets a type at a level: it counts where it wasn't found before, and then its name is to be asked for.
    pub(crate) fn meet(&mut self, level: u32, file: u32, stub: &'a Stub) -> Result<(), AllocError>
        ensures { OnOk result (self.new ≡ meet level self.old (file, stub.now)) }
    {
        let place = (file, stub.at);
        if !self.seen.contains_key(&place) {
            self.seen.insert(place, LeveledStub { level, stub })?;
            self.next.push(NextName { name: &stub.name })?;
        }
        Ok(())
    }

    /// Takes the names that are to be asked for.
    pub(crate) fn take_next(&mut self, alloc: Global) -> Vec<NextName<'a>>
        ensures names { result.items ≡ self.old.next }
        ensures rest { self.new ≡ record { seen = self.old.seen; next = [] } }
    {
        mem::replace(&mut self.next, Vec::new(alloc))
    }

    /// The types that were found.
    pub(crate) fn seen(&self) -> &BTreeMap<(u32, u32), LeveledStub<'a>>
        ensures { result.now.entries ≡ self.now.seen }
    {
        &self.seen
    }
}
