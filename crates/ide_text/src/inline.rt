//! Short texts that lie in place.
ghost use Rattle.std.specs.Prelude.{◌≡◌, IfSome};

use std::marker::Model;
use std::str::from_utf8_unchecked;

/// The most bytes that lie in place: with them a name is as large as a slice.
pub(crate) const ROOM: usize = 14;

/// UTF-8 of at most `ROOM` bytes, with no memory of its own.
#[derive(Drop)]
pub(crate) struct Inline {
    len: u8,
    bytes: [u8; ROOM],
}

impl Model for Inline {
    ghost use Rattle.std.specs.Prelude.{◌≡◌, ◌≤◌, List, ℕ, length, take, IsUtf8};

    ghost Value = { List ℕ };

    ghost view = { λ t. take t.len t.bytes };

    ghost invariant = { λ t. (t.len ≤ 14) × (length t.bytes ≡ 14) × IsUtf8 (take t.len t.bytes) };
}

impl Inline {
    /// The bytes of a text, if there is room for them.
    pub(crate) fn of(text: &str) -> Option<Inline>
        ensures { IfSome result (λ made. made ≡ text.now) }
    {
        let len = text.len();
        if len > ROOM {
            return None;
        }
        let mut bytes = [0; ROOM];
        bytes[..len].copy_from_slice(text.as_bytes());
        Some(Inline {
            len: len as u8,
            bytes,
        })
    }

    /// The same bytes once more.
    pub(crate) fn copy(&self) -> Inline
        ensures { result ≡ self.now }
    {
        Inline {
            len: self.len,
            bytes: self.bytes,
        }
    }

    /// The text.
    pub(crate) fn as_str(&self) -> &str
        ensures { result.now ≡ self.now }
    {
        unsafe { from_utf8_unchecked(&self.bytes[..self.len as usize]) }
    }
}
