//! What a word is to the rules of the listing.
ghost use Rattle.std.specs.Prelude.{◌≡◌, ◌+◌, ◌≤◌, ℕ, List, ◌∷◌, length, map};
ghost use Rattle.std.specs.List.{list_any};
ghost use Rattle.std.specs.Str.{bytes_eq};
ghost use Rattle.java_tokens.specs.Tokens.{characters_of};
ghost use Rattle.decl_parser.specs.Role.{is_marked, role_among, word_role};

use crate::role::Role;
use ide_text::Text;
use java_tokens::{Token, spells};

/// What a word is to the rules. Only words that begin with its first character are looked at.
pub(crate) fn word_role(text: &Text, token: &Token) -> Role
    requires { token.now.at + token.now.len ≤ length text.now }
    ensures { result ≡ word_role (characters_of text.now token.now) }
{
    if token.len() == 0 {
        return Role::Identifier;
    }
    role_among(text, token, words_from(text.char_at(token.at())))
}

/// What the first of these words that a token spells is to the rules; an identifier, if it spells none.
fn role_among(text: &Text, token: &Token, words: &[(&str, Role)]) -> Role
    requires { token.now.at + token.now.len ≤ length text.now }
    ensures { result
        ≡ role_among (λ w. w.0.now) (λ w. w.1) words.now (characters_of text.now token.now) }
{
    match text.ascii() {
        Some(ascii) => {
            let from = token.at() as usize;
            role_of_bytes(&ascii.as_bytes()[from..from + token.len() as usize], words)
        }
        None => role_of_token(text, token, words),
    }
}

/// The same of a token by its bytes, which are its characters where the text is kept as ASCII.
fn role_of_bytes(bytes: &[u8], words: &[(&str, Role)]) -> Role
    ensures { result ≡ role_among (λ w. w.0.now) (λ w. w.1) words.now bytes.now }
{
    for entry in words {
        if has_bytes(entry.0, bytes) {
            return entry.1;
        }
    }
    Role::Identifier
}

/// Whether a word has just these bytes. Lengths are compared first, which differ for most words.
#[inline]
fn has_bytes(word: &str, bytes: &[u8]) -> bool
    ensures { result ≡ bytes_eq word.now bytes.now }
{
    word.len() == bytes.len() && word.as_bytes() == bytes
}

/// The same of a token in any text.
fn role_of_token(text: &Text, token: &Token, words: &[(&str, Role)]) -> Role
    requires { token.now.at + token.now.len ≤ length text.now }
    ensures { result
        ≡ role_among (λ w. w.0.now) (λ w. w.1) words.now (characters_of text.now token.now) }
{
    for entry in words {
        if spells(text, token, entry.0) {
            return entry.1;
        }
    }
    Role::Identifier
}

/// The words that begin with a character and are no plain identifiers, each with what it is to the rules.
#[tactic(auto, unfolding(crate::specs::Role::is_marked, crate::specs::Role::word_role, crate::specs::Role::common_word_role, java_tokens::specs::Identifier::is_reserved))]
fn words_from(first: char) -> &'static [(&'static str, Role)]
    ensures words { (rest : List ℕ) → list_any (λ w. bytes_eq w.0.now (first ∷ rest)) result.now
        ≡ is_marked (first ∷ rest) }
    ensures roles { map (λ w. word_role w.0.now) result.now ≡ map (λ w. w.1) result.now }
{
    match first {
        'a' => &[("abstract", Role::Modifier), ("assert", Role::Other)],
        'b' => &[
            ("boolean", Role::Primitive),
            ("break", Role::Other),
            ("byte", Role::Primitive),
        ],
        'c' => &[
            ("case", Role::Other),
            ("catch", Role::Other),
            ("char", Role::Primitive),
            ("class", Role::Class),
            ("const", Role::Other),
            ("continue", Role::Other),
        ],
        'd' => &[
            ("default", Role::Modifier),
            ("do", Role::Other),
            ("double", Role::Primitive),
        ],
        'e' => &[
            ("else", Role::Other),
            ("enum", Role::Enum),
            ("extends", Role::Extends),
        ],
        'f' => &[
            ("final", Role::Modifier),
            ("finally", Role::Other),
            ("float", Role::Primitive),
            ("for", Role::Other),
            ("false", Role::Other),
        ],
        'g' => &[("goto", Role::Other)],
        'i' => &[
            ("if", Role::Other),
            ("implements", Role::Implements),
            ("import", Role::Other),
            ("instanceof", Role::Other),
            ("int", Role::Primitive),
            ("interface", Role::Interface),
        ],
        'l' => &[("long", Role::Primitive)],
        'n' => &[
            ("native", Role::Modifier),
            ("new", Role::Other),
            ("null", Role::Other),
        ],
        'p' => &[
            ("package", Role::Other),
            ("private", Role::Modifier),
            ("protected", Role::Modifier),
            ("public", Role::Modifier),
            ("permits", Role::Permits),
        ],
        'r' => &[("return", Role::Other), ("record", Role::Record)],
        's' => &[
            ("short", Role::Primitive),
            ("static", Role::Modifier),
            ("strictfp", Role::Modifier),
            ("super", Role::Other),
            ("switch", Role::Other),
            ("synchronized", Role::Modifier),
        ],
        't' => &[
            ("this", Role::Other),
            ("throw", Role::Other),
            ("throws", Role::Other),
            ("transient", Role::Modifier),
            ("try", Role::Other),
            ("true", Role::Other),
        ],
        'v' => &[("void", Role::Other), ("volatile", Role::Modifier)],
        'w' => &[("while", Role::Other)],
        '_' => &[("_", Role::Other)],
        _ => &[],
    }
}
