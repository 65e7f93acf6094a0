//! Rising lists of file ids.
ghost use Rattle.std.specs.Prelude.{◌≡◌, ℕ, [], ◌∷◌, ◌||◌, ◌&&◌, not, ◌==◌, length, OnErr, OnOk, IfOk};
ghost use Rattle.std.specs.Ordering.{nat_cmp};
ghost use Rattle.std.specs.List.Sorted.{IsStrictlySortedBy};
ghost use Rattle.file_index.specs.Places.{IsPlaceOf, has_id};

use smallvec::SmallVec;
use std::alloc::{AllocError, Global};
use std::marker::Model;

/// How many of the last ids are searched first: they lie in a cache line or two.
const NEAR: usize = 16;

/// How many ids lie in place: most keys have no more files.
const FEW: usize = 4;

/// The ids of files, each once, which rise.
#[derive(Drop)]
pub(crate) struct Ids {
    ids: SmallVec<u32, FEW>,
    /// No id is greater. So one that comes behind all is put there, and those that stand are not read.
    bound: u32,
}

impl Model for Ids {
    ghost use Rattle.std.specs.Prelude.{List, ℕ, ◌≤◌};
    ghost use Rattle.std.specs.Ordering.{nat_cmp};
    ghost use Rattle.std.specs.List.{AllByRecursion};
    ghost use Rattle.std.specs.List.Sorted.{IsStrictlySortedBy};

    ghost Value = { List ℕ };

    ghost view = { λ l. l.ids.items };

    ghost invariant = { λ l. IsStrictlySortedBy nat_cmp l.ids.items × AllByRecursion (λ id. id ≤ l.bound) l.ids.items };
}

impl Ids {
    /// One id.
    pub(crate) fn of(alloc: Global, id: u32) -> Result<Ids, AllocError>
        ensures { IfOk result (λ ids. ids ≡ id ∷ []) }
    {
        let mut ids = SmallVec::new(alloc);
        ids.push(id)?;
        Ok(Ids { ids, bound: id })
    }

    /// The ids.
    pub(crate) fn as_slice(&self) -> &[u32]
        ensures ids { result.now ≡ self.now }
        ensures rises { IsStrictlySortedBy nat_cmp self.now }
    {
        self.ids.as_slice()
    }

    /// Whether there is no id.
    pub(crate) fn is_empty(&self) -> bool
        ensures { result ≡ (length self.now == 0) }
    {
        self.ids.is_empty()
    }

    /// Puts an id in, if it isn't there.
    pub(crate) fn add(&mut self, id: u32) -> Result<(), AllocError>
        ensures added { OnOk result ((j : ℕ) → has_id j self.new ≡ (has_id j self.old || j == id)) }
        ensures unchanged { OnErr result (self.new ≡ self.old) }
    {
        if let Err(at) = self.place_of(id) {
            self.ids.insert(at, id)?;
            self.bound = self.bound.max(id);
        }
        Ok(())
    }

    /// Takes an id out, if it is there.
    pub(crate) fn take(&mut self, id: u32)
        ensures { (j : ℕ) → has_id j self.new ≡ (has_id j self.old && not (j == id)) }
    {
        if let Ok(at) = self.place_of(id) {
            self.ids.remove(at);
        }
    }

    /// Where an id is, or where it would go. Most come in order or nearly so: behind all, or among the last few, which are
    /// searched first.
    fn place_of(&self, id: u32) -> Result<usize, usize>
        ensures { IsPlaceOf id self.now result }
    {
        if self.bound < id {
            return Err(self.ids.len());
        }
        let (front, tail) = self
            .ids
            .as_slice()
            .split_at(self.ids.len().saturating_sub(NEAR));
        match place_among(tail, id) {
            Ok(at) => Ok(front.len() + at),
            Err(0) => place_among(front, id),
            Err(at) => Err(front.len() + at),
        }
    }

    /// The same ids once more.
    pub(crate) fn copy(&self) -> Result<Ids, AllocError>
        ensures { IfOk result (λ copy. copy ≡ self.now) }
    {
        Ok(Ids {
            ids: self.ids.clone()?,
            bound: self.bound,
        })
    }
}

/// Where an id is among rising ones, or where it would go.
fn place_among(ids: &[u32], id: u32) -> Result<usize, usize>
    requires { IsStrictlySortedBy nat_cmp ids.now }
    ensures { IsPlaceOf id ids.now result }
{
    ids.binary_search(&id)
}
