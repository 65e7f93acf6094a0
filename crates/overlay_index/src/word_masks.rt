//! The index of words.
ghost use Rattle.std.specs.Prelude.{◌≡◌, IfOk};

use file_index::laws::rows_of_rising_keys_are_in_order;
use file_index::{Indexer, KeyRows};
use ide_text::Name;
use java_tokens::WordList;
use std::alloc::{AllocError, Global};

/// Finds the words of a text, each with its mask.
#[derive(Clone, Copy, Drop)]
pub struct WordMasks;

impl Indexer for WordMasks {
    type Input = WordList;

    type Key = Name;

    type Value = u8;

    ghost rows_of = { λ words. words };

    ghost rows_version = { 1 };

    fn version(&self) -> u8 {
        1
    }

    fn rows(&self, alloc: Global, words: &WordList) -> Result<KeyRows<Name, u8>, AllocError> {
        rows_of_rising_keys_are_in_order::<Name, u8>();
        Ok(KeyRows::from_ordered(copy_words(alloc, words.as_slice())?))
    }

    fn copy_key(&self, _alloc: Global, key: &Name) -> Result<Name, AllocError> {
        key.copy()
    }

    fn copy_value(&self, _alloc: Global, mask: &u8) -> Result<u8, AllocError> {
        Ok(*mask)
    }
}

/// The rows of words that are given away: the same as `rows` makes of words that stay.
pub(crate) fn rows_of_words(words: WordList) -> KeyRows<Name, u8>
    ensures { result ≡ words }
{
    rows_of_rising_keys_are_in_order::<Name, u8>();
    KeyRows::from_ordered(words.into_vec())
}

/// The same words once more.
fn copy_words(alloc: Global, words: &[(Name, u8)]) -> Result<Vec<(Name, u8)>, AllocError>
    ensures { IfOk result (λ copy. copy.items ≡ words.now) }
{
    let mut copies = Vec::with_capacity(alloc, words.len())?;
    for (name, mask) in words {
        copies.push((name.copy()?, *mask))?;
    }
    Ok(copies)
}
