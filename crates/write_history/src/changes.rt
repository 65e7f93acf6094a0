//! The changes of one entry.
ghost use Rattle.std.specs.Prelude.{◌≡◌, ◌∷◌, [], IfOk, length};
ghost use Rattle.write_history.specs.Changes.{AreFew};

use crate::Change;
use std::alloc::{AllocError, Global};
use std::marker::Model;

/// The most changes of one entry.
pub const MAX_CHANGES: usize = 64;

/// The changes of one entry, 1 to 64, in order. A single one lies in place.
#[derive(Drop)]
pub struct Changes {
    kept: Listed,
}

/// How they lie.
#[derive(Drop)]
enum Listed {
    Single([Change; 1]),
    Several(Vec<Change>),
}

impl Model for Changes {
    ghost use Rattle.std.specs.Prelude.{List};
    ghost use Rattle.write_history.specs.declared.change.Change.{Change};
    ghost use Rattle.write_history.specs.Changes.{AreFew};
    ghost use Rattle.write_history.specs.Listed.{changes_of};

    ghost Value = { List Change };

    ghost view = { λ c. changes_of c.kept };

    ghost invariant = { λ c. AreFew (changes_of c.kept) };
}

impl Changes {
    /// A single change. It takes no memory.
    pub fn one(change: Change) -> Changes
        ensures { result ≡ change ∷ [] }
    {
        Changes {
            kept: Listed::Single([change]),
        }
    }

    /// The changes of a list.
    pub fn from_vec(changes: Vec<Change>) -> Changes
        requires { AreFew changes.items }
        ensures { result ≡ changes.items }
    {
        Changes {
            kept: Listed::Several(changes),
        }
    }

    /// The changes in order.
    pub fn as_slice(&self) -> &[Change]
        ensures value { result.now ≡ self.now }
        ensures few { AreFew result.now }
    {
        match &self.kept {
            Listed::Single(change) => change,
            Listed::Several(changes) => changes,
        }
    }

    /// The number of changes, 1 to 64.
    pub fn len(&self) -> usize
        ensures value { result ≡ length self.now }
        ensures few { AreFew self.now }
    {
        self.as_slice().len()
    }

    /// The same changes once more, which share their texts.
    pub fn copy(&self) -> Result<Changes, AllocError>
        ensures { IfOk result (λ copy. copy ≡ self.now) }
    {
        match &self.kept {
            Listed::Single([change]) => Ok(Changes::one(change.copy()?)),
            Listed::Several(changes) => Ok(Changes::from_vec(copies(
                *changes.allocator(),
                changes,
            )?)),
        }
    }
}

/// Copies of some changes, in order.
fn copies(alloc: Global, changes: &[Change]) -> Result<Vec<Change>, AllocError>
    ensures { IfOk result (λ copies. copies.items ≡ changes.now) }
{
    let mut copies = Vec::with_capacity(alloc, changes.len())?;
    for change in changes {
        copies.push(change.copy()?)?;
    }
    Ok(copies)
}
