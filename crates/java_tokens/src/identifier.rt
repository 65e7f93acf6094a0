//! Whether a text is a word or an identifier.
ghost use Rattle.std.specs.Prelude.{◌≡◌, ◌+◌, ◌≤◌, length};
ghost use Rattle.std.specs.Str.{bytes_eq, chars};
ghost use Rattle.java_tokens.specs.Chars.{begins_word, first_passes};
ghost use Rattle.java_tokens.specs.Identifier.{is_word, is_identifier};
ghost use Rattle.java_tokens.specs.Tokens.{characters_of};
ghost use Rattle.java_tokens.specs.Words.{is_identifier_token};

use crate::chars::{begins_word, continues_word};
use crate::kind::TokenKind;
use crate::piece::Piece;
use crate::reserved::{self, is_reserved, is_reserved_text};
use crate::token::Token;
use ide_text::Text;

/// Whether a text is one whole word (Java Language Specification, 3.8: a JavaLetter and JavaLettersOrDigits). Reserved
/// words, `true`, `false` and `null` are words too.
pub fn is_word(text: &str) -> bool
    ensures { result ≡ is_word (chars text.now) }
{
    begins_as_word(text) && text.chars().all(continues_word)
}

/// Whether a text is an identifier: a word that is neither reserved nor `true`, `false` or `null`.
pub fn is_identifier(text: &str) -> bool
    ensures { result ≡ is_identifier (chars text.now) }
{
    is_word(text) && !is_reserved_text(text)
}

/// Whether a token of a text is an identifier.
pub fn is_identifier_at(text: &Text, token: &Token) -> bool
    requires { token.now.at + token.now.len ≤ length text.now }
    ensures { result ≡ is_identifier_token text.now token.now }
{
    token.is(TokenKind::Word) && !is_reserved(&Piece::part(text, token.at(), token.len()))
}

/// Whether a token of a text has the characters of an ASCII word.
pub fn spells(text: &Text, token: &Token, word: &str) -> bool
    requires { token.now.at + token.now.len ≤ length text.now }
    ensures { result ≡ bytes_eq word.now (characters_of text.now token.now) }
{
    reserved::spells(&Piece::part(text, token.at(), token.len()), word)
}

/// Whether the first character of a text may begin a word.
fn begins_as_word(text: &str) -> bool
    ensures { result ≡ first_passes begins_word (chars text.now) }
{
    match text.chars().next() {
        Some(c) => begins_word(c),
        None => false,
    }
}
