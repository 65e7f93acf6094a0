//! The classes of characters that the lexical grammar tells apart.
ghost use Rattle.std.specs.Prelude.{◌≡◌};
ghost use Rattle.unicode_ident.specs.Ident.{is_xid_start, is_xid_continue};
ghost use Rattle.java_tokens.specs.Chars.{begins_word, continues_word};
ghost use Rattle.java_tokens.specs.Class.{is_in};

use unicode_ident::{is_xid_continue, is_xid_start};

/// A class of characters.
#[derive(Clone, Copy)]
pub enum Class {
    /// Space, tab, form feed and line feed.
    WhiteSpace,
    /// What may go on in a word.
    Word,
    /// What may go on in a number.
    Number,
}

impl Class {
    /// Whether the character belongs to the class.
    #[inline]
    pub fn contains(self, c: char) -> bool
        ensures { result ≡ is_in self c }
    {
        match self {
            Class::WhiteSpace => matches!(c, ' ' | '\t' | '\x0c' | '\n'),
            Class::Word => continues_word(c),
            Class::Number => continues_word(c) || c == '.',
        }
    }
}

/// Whether a word may begin with the character.
#[inline]
pub fn begins_word(c: char) -> bool
    ensures { result ≡ begins_word c }
{
    starts_identifier(c) || c == '_' || c == '$'
}

/// Whether a word may go on with the character.
#[inline]
pub fn continues_word(c: char) -> bool
    ensures { result ≡ continues_word c }
{
    continues_identifier(c) || c == '$'
}

/// Whether the character has the property XID_Start. One of ASCII is compared, in place of a look into the table.
#[inline]
fn starts_identifier(c: char) -> bool
    ensures { result ≡ is_xid_start c }
{
    if c.is_ascii() {
        c.is_ascii_alphabetic()
    } else {
        is_xid_start(c)
    }
}

/// Whether the character has the property XID_Continue, found likewise. Small letters come first, since most are.
#[inline]
fn continues_identifier(c: char) -> bool
    ensures { result ≡ is_xid_continue c }
{
    if c.is_ascii_lowercase() {
        true
    } else if c.is_ascii() {
        c.is_ascii_alphanumeric() || c == '_'
    } else {
        is_xid_continue(c)
    }
}
