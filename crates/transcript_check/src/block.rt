//! A piece of a transcript.
ghost use Rattle.std.specs.Prelude.{◌≡◌, bytes_eq, take, length};

use std::marker::Model;

/// The text of an entry or of a record, as a transcript has it.
#[derive(Drop)]
pub struct Block<'a> {
    pub(crate) bytes: &'a [u8],
}

impl<'a> Model for Block<'a> {
    ghost use Rattle.std.specs.Prelude.{ℕ, List};

    ghost Value = { List ℕ };

    ghost view = { λ b. b.bytes.now };
}

impl<'a> Block<'a> {
    /// Whether it is this text.
    pub(crate) fn is(&self, text: &[u8]) -> bool
        ensures { result ≡ bytes_eq text.now self.now }
    {
        text == self.bytes
    }

    /// Whether it begins with this text.
    pub(crate) fn begins_with(&self, head: &[u8]) -> bool
        ensures { result ≡ bytes_eq (take (length head.now) self.now) head.now }
    {
        self.bytes.len() >= head.len() && &self.bytes[..head.len()] == head
    }
}
