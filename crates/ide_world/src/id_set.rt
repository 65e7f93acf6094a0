//! The ids of the unready files: each is put in and taken out in the time of the logarithm of their number.
ghost use Rattle.std.specs.Prelude.{◌≡◌, ◌≤◌, ◌<◌, ◌+◌, ℕ, Bool, OnOk, IfOk, IfSome, IfNone, IsTrue, true, false, ◌==◌, if◌then◌else◌};
ghost use Rattle.list_laws.specs.Rows.{one_if};
ghost use Rattle.ide_world.specs.IdSet.{is_on, has_mark};

use std::alloc::{AllocError, Global};
use std::collections::BTreeMap;
use std::marker::Model;

/// A mark for each id, on or off, and how many are on.
#[derive(Drop)]
pub(crate) struct IdSet {
    ids: BTreeMap<u32, bool>,
    count: u32,
}

impl Model for IdSet {
    ghost use Rattle.ide_world.specs.IdSet.{IdSet as Seen};

    ghost Value = { Seen };

    ghost view = { λ m. record { entries = m.ids.entries; count = m.count } };
}

impl IdSet {
    /// All are off.
    pub(crate) fn new(alloc: Global) -> IdSet
        ensures off { (id : ℕ) → is_on result id ≡ false }
        ensures none { result.count ≡ 0 }
    {
        IdSet {
            ids: BTreeMap::new(alloc),
            count: 0,
        }
    }

    /// How many are on.
    pub(crate) fn count(&self) -> u32
        ensures { result ≡ self.now.count }
    {
        self.count
    }

    /// The lowest id that is on and isn't below `from`. Those that are off before it are of changes that found no memory.
    pub(crate) fn lowest_from(&self, from: u32) -> Option<u32>
        ensures on { IfSome result (λ id. is_on self.now id ≡ true) }
        ensures within { IfSome result (λ id. from ≤ id) }
        ensures first { IfSome result
            (λ id. (other : ℕ) → from ≤ other → other < id → is_on self.now other ≡ false) }
        ensures none { IfNone result ((id : ℕ) → from ≤ id → is_on self.now id ≡ false) }
    {
        let (id, _) = self.ids.range(from..).find(|(_, on)| **on)?;
        Some(*id)
    }

    /// Makes a place for an id.
    pub(crate) fn reserve(&mut self, id: u32) -> Result<(), AllocError>
        ensures place { OnOk result (has_mark self.new id ≡ true) }
        ensures same { (other : ℕ) → is_on self.new other ≡ is_on self.old other }
        ensures count { self.new.count ≡ self.old.count }
        ensures keeps { (other : ℕ) → has_mark self.old other ≡ true
            → has_mark self.new other ≡ true }
    {
        if !self.ids.contains_key(&id) {
            self.ids.insert(id, false)?;
        }
        Ok(())
    }

    /// Turns an id on or off. It takes no memory.
    pub(crate) fn set(&mut self, id: u32, on: bool)
        requires place { has_mark self.old id ≡ true }
        requires some { one_if (is_on self.old id) ≤ self.old.count }
        requires few { self.old.count < u32.MAX }
        ensures each { (other : ℕ)
            → is_on self.new other ≡ (if id == other then on else is_on self.old other) }
        ensures count { self.new.count + one_if (is_on self.old id) ≡ self.old.count + one_if on }
        ensures keeps { (other : ℕ) → has_mark self.new other ≡ has_mark self.old other }
    {
        let Some(mark) = self.ids.get_mut(&id) else {
            unreachable!()
        };
        let was_on = *mark;
        *mark = on;
        if was_on {
            self.count -= 1;
        }
        if on {
            self.count += 1;
        }
    }

    /// Gives up the place of an id that is off.
    pub(crate) fn sweep(&mut self, id: u32)
        ensures each { (other : ℕ) → is_on self.new other ≡ is_on self.old other }
        ensures count { self.new.count ≡ self.old.count }
        ensures swept { is_on self.old id ≡ false → has_mark self.new id ≡ false }
        ensures keeps { (other : ℕ) → (other == id) ≡ false
            → has_mark self.new other ≡ has_mark self.old other }
    {
        if let Some(on) = self.ids.get(&id)
            && !*on
        {
            self.ids.remove(&id);
        }
    }

    /// The same marks once more.
    pub(crate) fn copy(&self) -> Result<IdSet, AllocError>
        ensures { IfOk result (λ copy. copy ≡ self.now) }
    {
        Ok(IdSet {
            ids: self.ids.clone()?,
            count: self.count,
        })
    }
}
