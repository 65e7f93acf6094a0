//! Where a word of a text may stand.
ghost use Rattle.std.specs.Prelude.{◌≡◌};
ghost use Rattle.java_tokens.specs.Words.{bit_of, has_bit};

/// Where a word stands.
#[derive(Clone, Copy, Debug, PartialEq, Eq)]
pub enum Context {
    /// In code, as an identifier.
    Code = 1,
    /// In a comment.
    Comment = 2,
    /// In a string literal or a text block.
    String = 4,
}

impl Context {
    /// The bit of the place in a mask.
    pub fn bit(self) -> u8
        ensures { result ≡ bit_of self }
    {
        self as u8
    }

    /// Whether the place is among those of a mask.
    pub fn is_in(self, mask: u8) -> bool
        ensures { result ≡ has_bit self mask }
    {
        mask & self.bit() != 0
    }
}
