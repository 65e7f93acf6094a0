//! What an index reads from its inputs.
ghost use Rattle.std.specs.Prelude.{◌≡◌, ℕ, List, IfOk};

use crate::KeyRows;
use std::alloc::{AllocError, Global};
use std::hash::Hash;

/// A value of rows that has a place among those of one key in a file.
pub trait Rank {
    ghost rank_of: { Self → ℕ };

    /// Its place.
    fn rank(&self) -> u32
        ensures { result ≡ rank_of self.now };
}

impl Rank for u8 {
    ghost rank_of = { λ value. value };

    fn rank(&self) -> u32 {
        *self as u32
    }
}

impl Rank for u32 {
    ghost rank_of = { λ value. value };

    fn rank(&self) -> u32 {
        *self
    }
}

/// A way to make rows of an input: each a key, by which it is found, and a value.
///
/// The rows are a function of the input alone, `rows_of`. They rise, first by the keys and then by the places of the
/// values, since `KeyRows` are such rows by their type.
pub trait Indexer: Copy + Drop {
    /// What is indexed.
    type Input;
    /// What rows are found by.
    type Key: Hash + Eq + Ord + Drop;
    /// What a row tells.
    type Value: Rank + Drop;

    ghost rows_of: { Self.Input → List (Self.Key × Self.Value) };

    ghost rows_version: { ℕ };

    /// The version of the rows: rows of another version are of no use.
    fn version(&self) -> u8
        ensures { result ≡ rows_version };

    /// The rows of an input.
    fn rows(
        &self,
        alloc: Global,
        input: &Self::Input,
    ) -> Result<KeyRows<Self::Key, Self::Value>, AllocError>
        ensures { IfOk result (λ rows. rows ≡ rows_of input.now) };

    /// The same key once more.
    fn copy_key(&self, alloc: Global, key: &Self::Key) -> Result<Self::Key, AllocError>
        ensures { IfOk result (λ copy. copy ≡ key.now) };

    /// The same value once more.
    fn copy_value(&self, alloc: Global, value: &Self::Value) -> Result<Self::Value, AllocError>
        ensures { IfOk result (λ copy. copy ≡ value.now) };
}
