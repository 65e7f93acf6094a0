//! The list of the accepted changes, with room for the next one.
ghost use Rattle.std.specs.Prelude.{◌≡◌, ◌≤◌, ◌<◌, ◌+◌, ◌-◌, ◌∷◌, [], ◌++◌, length, slice_get, Some, OnOk, OnErr, IsOk, All};
ghost use Rattle.write_history.specs.Changes.{AreFew};

use crate::Entry;
use std::alloc::{AllocError, Global};
use std::marker::Model;

/// The most entries that a history may have.
pub const MAX_ENTRIES: u64 = 1_048_576;

/// The entries, from position 1 on, and the number of entries for which room is kept.
#[derive(Drop)]
pub struct History {
    entries: Vec<Entry>,
}

impl Model for History {
    ghost use Rattle.std.specs.Prelude.{◌-◌, vec_len, vec_capacity};
    ghost use Rattle.write_history.specs.Kept.{Kept};
    ghost use Rattle.std.specs.List.{All};
    ghost use Rattle.write_history.specs.Changes.{AreFew};

    ghost Value = { Kept };

    ghost view = { λ h. record { entries = h.entries.items; spare = vec_capacity h.entries - vec_len h.entries } };

    ghost invariant = { λ h. All (λ entry. AreFew entry.changes) h.entries.items };
}

impl History {
    /// The empty history.
    pub fn new(alloc: Global) -> History
        ensures entries { result.entries ≡ [] }
        ensures spare { result.spare ≡ 0 }
    {
        History {
            entries: Vec::new(alloc),
        }
    }

    /// Makes room for one entry more. It takes no memory where there is room.
    pub fn reserve(&mut self) -> Result<(), AllocError>
        ensures room { OnOk result (0 < self.new.spare) }
        ensures same { self.new.entries ≡ self.old.entries }
        ensures kept { self.old.spare ≤ self.new.spare }
        ensures succeeds { 0 < self.old.spare → IsOk result }
        ensures err { OnErr result (self.new.spare ≡ self.old.spare) }
    {
        self.entries.reserve(1)
    }

    /// Adds an entry. It takes no memory.
    pub fn push(&mut self, entry: Entry)
        requires { 0 < self.old.spare }
        ensures { self.new.entries ≡ self.old.entries ++ entry ∷ [] }
    {
        let Ok(()) = self.entries.push(entry) else {
            unreachable!()
        };
    }

    /// The number of entries.
    pub fn len(&self) -> u64
        ensures value { result ≡ length self.now.entries }
        ensures few { All (λ entry. AreFew entry.changes) self.now.entries }
    {
        self.entries.len() as u64
    }

    /// The entry at a position, from 1.
    pub fn get(&self, position: u64) -> &Entry
        requires first { 0 < position }
        requires last { position ≤ length self.now.entries }
        ensures { slice_get self.now.entries (position - 1) ≡ Some result.now }
    {
        &self.entries[position as usize - 1]
    }
}
