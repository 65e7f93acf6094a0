//! The index of property keys.
ghost use Rattle.std.specs.Prelude.{◌≡◌, IfOk};

use crate::listing::property_keys;
use file_index::{Indexer, KeyRows};
use ide_text::{Name, Text};
use std::alloc::{AllocError, Global};

/// Finds the property keys of a text: under each key the offsets at which it stands.
#[derive(Clone, Copy, Drop)]
pub struct PropertyKeys;

impl Indexer for PropertyKeys {
    type Input = Text;

    type Key = Name;

    type Value = u32;

    ghost use Rattle.property_index.specs.Keys.{key_rows};

    ghost rows_of = { λ text. key_rows text };

    ghost rows_version = { 1 };

    fn version(&self) -> u8 {
        1
    }

    fn rows(&self, alloc: Global, text: &Text) -> Result<KeyRows<Name, u32>, AllocError> {
        KeyRows::from_rows(property_keys(alloc, text)?)
    }

    fn copy_key(&self, _alloc: Global, key: &Name) -> Result<Name, AllocError> {
        key.copy()
    }

    fn copy_value(&self, _alloc: Global, at: &u32) -> Result<u32, AllocError> {
        Ok(*at)
    }
}
