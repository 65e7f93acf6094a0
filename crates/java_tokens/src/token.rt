//! A token: its kind and where it stands.
ghost use Rattle.std.specs.Prelude.{◌≡◌, ◌==◌, ◌<◌};
ghost use Rattle.java_tokens.specs.TokenKind.{code_of};

use crate::kind::TokenKind;
use std::marker::Model;

/// A token of a text. Places and lengths count characters.
///
/// Eight bytes: the length has three of them, which is enough for any text.
#[derive(Clone, Copy)]
pub struct Token {
    at: u32,
    len_low: u16,
    len_high: u8,
    kind: u8,
}

impl Model for Token {
    ghost use Rattle.std.specs.Prelude.{◌+◌, ◌*◌, ◌/◌, ◌%◌, ◌<◌};
    ghost use Rattle.java_tokens.specs.Token.{Token as Seen};

    ghost Value = { Seen };

    ghost view = { λ t. record { kind = t.kind; at = t.at; len = t.len_low + 65536 * t.len_high } };

    ghost invariant = { λ t. t.len_low < 65536 };

    ghost inverse = { λ t. record { at = t.at; len_low = t.len % 65536; len_high = t.len / 65536; kind = t.kind } };
}

const _: () = prove!(size_of::<Token>() == 8);

impl Token {
    /// The token of a kind that begins at a place and has so many characters.
    #[inline]
    pub(crate) fn of(kind: TokenKind, at: u32, len: u32) -> Token
        requires { len < 16777216 }
        ensures { result ≡ record { kind = code_of kind; at = at; len = len } }
    {
        Token {
            at,
            len_low: (len % 65536) as u16,
            len_high: (len / 65536) as u8,
            kind: kind.code(),
        }
    }

    /// The code of its kind, as `TokenKind::code` gives it.
    #[inline]
    pub fn kind(&self) -> u8
        ensures { result ≡ self.now.kind }
    {
        self.kind
    }

    /// The place of its first character.
    #[inline]
    pub fn at(&self) -> u32
        ensures { result ≡ self.now.at }
    {
        self.at
    }

    /// The number of its characters.
    #[inline]
    pub fn len(&self) -> u32
        ensures { result ≡ self.now.len }
    {
        self.len_low as u32 + 65536 * self.len_high as u32
    }

    /// Whether the token is of this kind.
    #[inline]
    pub fn is(&self, kind: TokenKind) -> bool
        ensures { result ≡ (self.now.kind == code_of kind) }
    {
        self.kind == kind.code()
    }
}
