//! The kinds of tokens.
ghost use Rattle.std.specs.Prelude.{◌≡◌};
ghost use Rattle.java_tokens.specs.TokenKind.{code_of};

/// The kind of a token.
#[derive(Clone, Copy, Debug, PartialEq, Eq)]
pub enum TokenKind {
    /// An identifier, a keyword, `true`, `false` or `null`.
    Word = 1,
    /// A number, cut without a grammar of its own.
    Number = 2,
    /// A string literal.
    Str = 3,
    /// A character literal.
    Char = 4,
    /// A text block.
    TextBlock = 5,
    /// A comment from `//` to the end of the line.
    LineComment = 6,
    /// A comment from `/*` through `*/`.
    BlockComment = 7,
    /// Any other character that isn't white space.
    Punct = 8,
}

impl TokenKind {
    /// The code by which a token tells its kind.
    pub fn code(self) -> u8
        ensures { result ≡ code_of self }
    {
        self as u8
    }
}
