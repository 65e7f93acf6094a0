//! The ids of files by their paths, each found, kept and changed in constant time on average.
ghost use Rattle.std.specs.Prelude.{◌≡◌, ℕ, [], None, Bool, not, ◌&&◌, ◌||◌, List, IsTrue, OnOk, IfOk, bytes_eq, is_some, if◌then◌else◌};
ghost use Rattle.std.specs.Map.{keys_of};
ghost use Rattle.vfs_core.specs.FilesView.{has_name};
ghost use Rattle.vfs_core.specs.Table.{id_kept};

use ide_text::Name;
use indexmap::IndexMap;
use std::alloc::{AllocError, Global};
use std::marker::Model;

/// The ids by paths. A path without an id is one for which there is a place.
#[derive(Drop)]
pub(crate) struct Paths {
    alloc: Global,
    ids: IndexMap<Name, Option<u32>>,
}

impl Model for Paths {
    ghost use Rattle.std.specs.Prelude.{List, ℕ, Option};

    ghost Value = { List (List ℕ × Option ℕ) };

    ghost view = { λ p. p.ids.entries };
}

impl Paths {
    /// No paths.
    pub(crate) fn new(alloc: Global) -> Paths
        ensures { result ≡ [] }
    {
        Paths {
            alloc,
            ids: IndexMap::new(alloc),
        }
    }

    /// The id that is kept for a path.
    pub(crate) fn get(&self, path: &Name) -> Option<u32>
        ensures { result ≡ id_kept path.now self.now }
    {
        self.ids.get(path).copied().flatten()
    }

    /// Makes a place for the id of a path.
    pub(crate) fn reserve(&mut self, path: &Name) -> Result<(), AllocError>
        ensures same { (other : List ℕ) → id_kept other self.new ≡ id_kept other self.old }
        ensures room { OnOk result (IsTrue (has_name (keys_of self.new) path.now)) }
        ensures keeps_room { (other : List ℕ) → IsTrue (has_name (keys_of self.old) other)
            → IsTrue (has_name (keys_of self.new) other) }
    {
        if !self.ids.contains_key(path) {
            self.ids.insert(path.copy()?, None)?;
        }
        Ok(())
    }

    /// Gives a path an id, or none. It takes no memory.
    pub(crate) fn set(&mut self, path: &Name, id: Option<u32>)
        requires { IsTrue (has_name (keys_of self.old) path.now) }
        ensures ids { (other : List ℕ)
            → id_kept other self.new
            ≡ (if bytes_eq path.now other then id else id_kept other self.old) }
        ensures keeps_room { (other : List ℕ) → IsTrue (has_name (keys_of self.old) other)
            → IsTrue (has_name (keys_of self.new) other) }
    {
        let Some(kept) = self.ids.get_mut(path) else {
            unreachable!()
        };
        *kept = id;
    }

    /// Gives up the place of a path that has no id.
    pub(crate) fn sweep(&mut self, path: &Name)
        ensures same { (other : List ℕ) → id_kept other self.new ≡ id_kept other self.old }
        ensures places { (other : List ℕ)
            → has_name (keys_of self.new) other
            ≡ (has_name (keys_of self.old) other &&
            (not (bytes_eq path.now other) || is_some (id_kept path.now self.old))) }
    {
        if self.get(path).is_none() {
            self.ids.swap_remove(path);
        }
    }

    /// The same ids once more.
    pub(crate) fn copy(&self) -> Result<Paths, AllocError>
        ensures { IfOk result
            (λ copy. (path : List ℕ) → id_kept path copy ≡ id_kept path self.now) }
    {
        let mut ids = IndexMap::with_capacity(self.alloc, self.ids.len())?;
        for (path, id) in &self.ids {
            ids.insert(path.copy()?, *id)?;
        }
        Ok(Paths {
            alloc: self.alloc,
            ids,
        })
    }
}
