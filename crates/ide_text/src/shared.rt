//! A text with several owners: a script, its history and the state of the workspace have one copy of it.
ghost use Rattle.std.specs.Prelude.{◌≡◌, IfOk, bytes_eq, length};

use crate::Text;
use std::alloc::{AllocError, Global};
use std::marker::Model;
use std::sync::Arc;

/// A text with several owners, seen by contracts as its list of characters. It is never changed.
#[derive(Drop)]
pub struct SharedText {
    text: Arc<Text>,
}

impl Model for SharedText {
    ghost use Rattle.std.specs.Prelude.{List, ℕ};

    ghost Value = { List ℕ };

    ghost view = { λ t. t.text.value };
}

impl SharedText {
    /// A text with its first owner.
    pub fn new(alloc: Global, text: Text) -> Result<SharedText, AllocError>
        ensures { IfOk result (λ shared. shared ≡ text) }
    {
        Ok(SharedText {
            text: Arc::new(alloc, text)?,
        })
    }

    /// One more owner of the same text. Constant time.
    pub fn share(&self) -> Result<SharedText, AllocError>
        ensures { IfOk result (λ shared. shared ≡ self.now) }
    {
        Ok(SharedText {
            text: self.text.clone()?,
        })
    }

    /// The number of characters.
    pub fn len(&self) -> u32
        ensures { result ≡ length self.now }
    {
        self.text.len()
    }

    /// Whether the other text has the same characters. Lengths are compared first.
    pub fn is_same(&self, other: &SharedText) -> bool
        ensures { result ≡ bytes_eq self.now other.now }
    {
        self.text.is_same(&other.text)
    }

    /// The text.
    pub fn as_text(&self) -> &Text
        ensures { result.now ≡ self.now }
    {
        &self.text
    }
}
