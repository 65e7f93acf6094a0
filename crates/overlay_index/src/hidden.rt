//! The bases of files that have an overlay.
ghost use Rattle.std.specs.Prelude.{◌≡◌, ◌==◌, ℕ, true, false, is_some, Some, None, if◌then◌else◌, IfOk, OnOk, IsSome};
ghost use Rattle.std.specs.Ordering.{nat_cmp};
ghost use Rattle.std.specs.BTreeMap.{get, is_at};
ghost use Rattle.overlay_index.specs.Layers.{hidden_in, has_place};

use crate::data::FileData;
use std::alloc::{AllocError, Global};
use std::collections::BTreeMap;
use std::marker::Model;

/// The base of each file that has an overlay, by the file's id; `None` is a place that was made for one.
#[derive(Drop)]
pub(crate) struct Hidden {
    bases: BTreeMap<u32, Option<FileData>>,
}

impl Model for Hidden {
    ghost use Rattle.std.specs.Prelude.{List, ℕ, Option};
    ghost use Rattle.overlay_index.specs.Parts.{Parts};

    ghost Value = { List (ℕ × Option Parts) };

    ghost view = { λ h. h.bases.entries };
}

impl Hidden {
    /// No bases.
    pub(crate) fn new(alloc: Global) -> Hidden
        ensures { (other : ℕ) → hidden_in result other ≡ None }
    {
        Hidden {
            bases: BTreeMap::new(alloc),
        }
    }

    /// Whether a base of the file lies hidden.
    pub(crate) fn has(&self, file: u32) -> bool
        ensures { result ≡ is_some (hidden_in self.now file) }
    {
        match self.bases.get(&file) {
            Some(base) => base.is_some(),
            None => false,
        }
    }

    /// Makes a place for the base of a file.
    pub(crate) fn make_place(&mut self, file: u32) -> Result<(), AllocError>
        ensures same { (other : ℕ) → hidden_in self.new other ≡ hidden_in self.old other }
        ensures place { OnOk result (has_place self.new file ≡ true) }
        ensures keeps_place { (other : ℕ) → has_place self.old other ≡ true
            → has_place self.new other ≡ true }
    {
        if !self.bases.contains_key(&file) {
            drop(self.bases.insert(file, None)?);
        }
        Ok(())
    }

    /// Hides a base of a file, or none, and gives back the one that lay there.
    pub(crate) fn put(&mut self, file: u32, base: Option<FileData>) -> Option<FileData>
        requires { has_place self.old file ≡ true }
        ensures old { result ≡ hidden_in self.old file }
        ensures each { (other : ℕ)
            → hidden_in self.new other
            ≡ (if file == other then base else hidden_in self.old other) }
        ensures keeps_place { (other : ℕ) → has_place self.old other ≡ true
            → has_place self.new other ≡ true }
    {
        match self.bases.insert(file, base) {
            Ok(Some(old)) => old,
            Ok(None) => unreachable!(),
            Err(_) => unreachable!(),
        }
    }

    /// Takes the base of a file out, and keeps its place.
    pub(crate) fn take(&mut self, file: u32) -> Option<FileData>
        ensures old { result ≡ hidden_in self.old file }
        ensures each { (other : ℕ)
            → hidden_in self.new other
            ≡ (if file == other then None else hidden_in self.old other) }
        ensures keeps_place { (other : ℕ) → has_place self.old other ≡ true
            → has_place self.new other ≡ true }
    {
        if !self.bases.contains_key(&file) {
            return None;
        }
        self.put(file, None)
    }

    /// Gives up the place of a file where no base lies.
    pub(crate) fn sweep(&mut self, file: u32)
        ensures same { (other : ℕ) → hidden_in self.new other ≡ hidden_in self.old other }
        ensures keeps_place { (other : ℕ) → (other == file) ≡ false
            → has_place self.old other ≡ true → has_place self.new other ≡ true }
        ensures swept { has_place self.new file ≡ is_some (hidden_in self.new file) }
    {
        if !self.has(file) {
            drop(self.bases.remove(&file));
        }
    }

    /// The same bases once more.
    pub(crate) fn copy(&self, alloc: Global) -> Result<Hidden, AllocError>
        ensures { IfOk result
            (λ copy. (other : ℕ) → hidden_in copy other ≡ hidden_in self.now other) }
    {
        let _ = self.bases.len();
        let mut bases = BTreeMap::new(alloc);
        for (file, base) in &self.bases {
            put_copy(alloc, &mut bases, *file, base)?;
        }
        Ok(Hidden { bases })
    }
}

/// Puts a copy of a base, or of none, in under a file.
fn put_copy(
    alloc: Global,
    bases: &mut BTreeMap<u32, Option<FileData>>,
    file: u32,
    base: &Option<FileData>,
) -> Result<(), AllocError>
    ensures { OnOk result
        ((other : ℕ)
        → get nat_cmp bases.new other
        ≡ (if is_at (nat_cmp file) other then Some base.now
        else get nat_cmp bases.old other)) }
{
    drop(bases.insert(file, copy_base(alloc, base)?)?);
    Ok(())
}

/// The same base once more, or none.
fn copy_base(alloc: Global, base: &Option<FileData>) -> Result<Option<FileData>, AllocError>
    ensures { IfOk result (λ copy. copy ≡ base.now) }
{
    match base {
        Some(base) => Ok(Some(base.copy(alloc)?)),
        None => Ok(None),
    }
}
