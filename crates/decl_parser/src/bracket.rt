//! The kinds of brackets.
ghost use Rattle.std.specs.Prelude.{◌≡◌, ◌==◌};
ghost use Rattle.decl_parser.specs.Role.{same_bracket};

/// A kind of brackets.
#[derive(Clone, Copy)]
pub(crate) enum Bracket {
    /// `(` and `)`.
    Paren,
    /// `[` and `]`.
    Square,
    /// `{` and `}`.
    Brace,
}

impl Bracket {
    /// Whether the brackets are of the same kind.
    pub(crate) fn is(self, other: Bracket) -> bool
        ensures { result ≡ same_bracket self other }
    {
        self as u8 == other as u8
    }
}
