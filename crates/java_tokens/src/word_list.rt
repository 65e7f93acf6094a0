//! The words of a text, in the order of their names.
ghost use Rattle.std.specs.Prelude.{◌≡◌, ◌==◌, IfOk, length};
ghost use Rattle.java_tokens.specs.Words.{AreInOrder, mask_in};

use crate::masks::Masks;
use ide_text::Name;
use std::alloc::AllocError;
use std::marker::Model;

/// Names with masks: the names in order, each once, and the mask of each the union of the bits of the places where
/// it stands (`Context`).
#[derive(Drop)]
pub struct WordList {
    rows: Vec<(Name, u8)>,
}

impl Model for WordList {
    ghost use Rattle.std.specs.Prelude.{List, ℕ};

    ghost Value = { List (List ℕ × ℕ) };

    ghost use Rattle.java_tokens.specs.Words.{AreInOrder};

    ghost view = { λ l. l.rows.items };

    ghost invariant = { λ l. AreInOrder l.rows.items };
}

impl WordList {
    /// The words that were gathered.
    pub(crate) fn from_masks(masks: Masks) -> Result<WordList, AllocError>
        requires { AreInOrder masks }
        ensures { IfOk result (λ list. list ≡ masks) }
    {
        Ok(WordList {
            rows: masks.into_rows()?,
        })
    }

    /// The number of words.
    pub fn len(&self) -> usize
        ensures { result ≡ length self.now }
    {
        self.rows.len()
    }

    /// Whether there is no word.
    pub fn is_empty(&self) -> bool
        ensures { result ≡ (length self.now == 0) }
    {
        self.rows.is_empty()
    }

    /// The names with their masks.
    pub fn as_slice(&self) -> &[(Name, u8)]
        ensures rows { result.now ≡ self.now }
        ensures in_order { AreInOrder self.now }
    {
        &self.rows
    }

    /// The names with their masks, given away.
    pub fn into_vec(self) -> Vec<(Name, u8)>
        ensures rows { result.items ≡ self }
        ensures in_order { AreInOrder self }
    {
        self.rows
    }

    /// The mask of a name, if it is among the words. The time is the logarithm of their number.
    pub fn mask_of(&self, name: &Name) -> Option<u8>
        ensures { result ≡ mask_in self.now name.now }
    {
        match self.rows.binary_search_by(|row| row.0.cmp(name)) {
            Ok(at) => Some(self.rows[at].1),
            Err(_) => None,
        }
    }

    /// The same words once more.
    pub fn copy(&self) -> Result<WordList, AllocError>
        ensures { IfOk result (λ copy. copy ≡ self.now) }
    {
        let mut rows = Vec::new(*self.rows.allocator());
        for (name, mask) in &self.rows {
            rows.push((name.copy()?, *mask))?;
        }
        Ok(WordList { rows })
    }
}
