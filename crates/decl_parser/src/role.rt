//! What a token is to the rules of the listing.
ghost use Rattle.std.specs.Prelude.{◌≡◌, ◌==◌, ◌≤◌, ◌+◌, length};
ghost use Rattle.decl_parser.specs.Role.{code_of, same_role, opened_by, closed_by, mark_role, role_of};

use crate::bracket::Bracket;
use crate::word::word_role;
use ide_text::Text;
use java_tokens::{Token, TokenKind};

/// What a token is to the rules.
#[derive(Clone, Copy)]
pub(crate) enum Role {
    /// An identifier other than the two below.
    Identifier,
    /// The identifier `record`.
    Record,
    /// The identifier `permits`.
    Permits,
    /// `class`.
    Class,
    /// `interface`.
    Interface,
    /// `enum`.
    Enum,
    /// `extends`.
    Extends,
    /// `implements`.
    Implements,
    /// One of the words that may stand before a constructor.
    Modifier,
    /// The name of a primitive type.
    Primitive,
    /// `@`.
    At,
    /// `.`.
    Dot,
    /// `,`.
    Comma,
    /// `;`.
    Semicolon,
    /// `=`.
    Equals,
    /// `<`.
    Less,
    /// `>`.
    Greater,
    /// `(`, which stands for its group.
    ParenGroup,
    /// `[`, which stands for its group.
    SquareGroup,
    /// `{`, which stands for its group.
    BraceGroup,
    /// `)`.
    CloseParen,
    /// `]`.
    CloseSquare,
    /// `}`.
    CloseBrace,
    /// A comment.
    Comment,
    /// A bracket without a partner.
    Lone,
    /// What stands within angles.
    Angled,
    /// Any other token.
    Other,
}

impl Role {
    /// Whether the roles are the same.
    #[inline]
    pub(crate) fn is(self, other: Role) -> bool
        ensures { result ≡ same_role other self }
    {
        self as u8 == other as u8
    }

    /// The kind of bracket that the token opens, if it does.
    #[inline]
    pub(crate) fn opened(self) -> Option<Bracket>
        ensures { result ≡ opened_by self }
    {
        match self {
            Role::ParenGroup => Some(Bracket::Paren),
            Role::SquareGroup => Some(Bracket::Square),
            Role::BraceGroup => Some(Bracket::Brace),
            _ => None,
        }
    }

    /// The kind of bracket that the token closes, if it does.
    #[inline]
    pub(crate) fn closed(self) -> Option<Bracket>
        ensures { result ≡ closed_by self }
    {
        match self {
            Role::CloseParen => Some(Bracket::Paren),
            Role::CloseSquare => Some(Bracket::Square),
            Role::CloseBrace => Some(Bracket::Brace),
            _ => None,
        }
    }
}

/// What a token of a text is to the rules.
pub(crate) fn role_of(text: &Text, token: &Token) -> Role
    requires { token.now.at + token.now.len ≤ length text.now }
    ensures { result ≡ role_of text.now token.now }
{
    if token.is(TokenKind::LineComment) || token.is(TokenKind::BlockComment) {
        Role::Comment
    } else if token.is(TokenKind::Word) {
        word_role(text, token)
    } else if token.is(TokenKind::Punct) && token.at() < text.len() {
        mark_role(text.char_at(token.at()))
    } else {
        Role::Other
    }
}

/// What a mark is to the rules.
#[tactic(auto, unfolding(crate::specs::Role::mark_role))]
fn mark_role(c: char) -> Role
    ensures { result ≡ mark_role c }
{
    match c {
        '@' => Role::At,
        '.' => Role::Dot,
        ',' => Role::Comma,
        ';' => Role::Semicolon,
        '=' => Role::Equals,
        '<' => Role::Less,
        '>' => Role::Greater,
        '(' => Role::ParenGroup,
        ')' => Role::CloseParen,
        '[' => Role::SquareGroup,
        ']' => Role::CloseSquare,
        '{' => Role::BraceGroup,
        '}' => Role::CloseBrace,
        _ => Role::Other,
    }
}
