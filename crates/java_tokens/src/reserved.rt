//! The words that are no identifiers: the reserved words, `true`, `false` and `null`.
ghost use Rattle.std.specs.Prelude.{◌≡◌, ℕ, List, ◌∷◌, IsTrue};
ghost use Rattle.std.specs.Char.{is_ascii};
ghost use Rattle.std.specs.List.{list_all, list_any};
ghost use Rattle.std.specs.Str.{bytes_eq, chars};
ghost use Rattle.java_tokens.specs.Identifier.{is_reserved};

use crate::piece::Piece;

/// Whether the characters are those of a word that is no identifier.
#[inline(always)]
#[tactic(auto, unfolding(crate::specs::Identifier::is_reserved))]
pub fn is_reserved(piece: &Piece) -> bool
    ensures { result ≡ is_reserved piece.now }
{
    match piece.get(0) {
        Some(first) => spells_any(piece, reserved_from(first)),
        None => false,
    }
}

/// The words that are no identifiers and begin with a character.
#[tactic(auto, unfolding(crate::specs::Identifier::is_reserved))]
fn reserved_from(first: char) -> &'static [&'static str]
    ensures words { (rest : List ℕ)
        → list_any (λ word. bytes_eq word.now (first ∷ rest)) result.now
        ≡ is_reserved (first ∷ rest) }
    ensures ascii { IsTrue (list_all (λ word. list_all is_ascii word.now) result.now) }
{
    match first {
        'a' => &["abstract", "assert"],
        'b' => &["boolean", "break", "byte"],
        'c' => &["case", "catch", "char", "class", "const", "continue"],
        'd' => &["default", "do", "double"],
        'e' => &["else", "enum", "extends"],
        'f' => &["final", "finally", "float", "for", "false"],
        'g' => &["goto"],
        'i' => &[
            "if",
            "implements",
            "import",
            "instanceof",
            "int",
            "interface",
        ],
        'l' => &["long"],
        'n' => &["native", "new", "null"],
        'p' => &["package", "private", "protected", "public"],
        'r' => &["return"],
        's' => &[
            "short",
            "static",
            "strictfp",
            "super",
            "switch",
            "synchronized",
        ],
        't' => &["this", "throw", "throws", "transient", "try", "true"],
        'v' => &["void", "volatile"],
        'w' => &["while"],
        '_' => &["_"],
        _ => &[],
    }
}

/// Whether the characters are those of one of these ASCII words.
#[inline(always)]
fn spells_any(piece: &Piece, words: &[&str]) -> bool
    ensures { result ≡ list_any (λ word. bytes_eq word.now piece.now) words.now }
{
    match piece.ascii() {
        Some(bytes) => is_any_of(bytes, words),
        None => spells_any_of(piece, words),
    }
}

/// Whether these bytes are those of one of these words.
#[inline(always)]
fn is_any_of(bytes: &[u8], words: &[&str]) -> bool
    ensures { result ≡ list_any (λ word. bytes_eq word.now bytes.now) words.now }
{
    for word in words {
        if word.len() == bytes.len() {
            if word.as_bytes() == bytes {
                return true;
            }
        }
    }
    false
}

/// Whether the characters of any text are those of one of these ASCII words.
fn spells_any_of(piece: &Piece, words: &[&str]) -> bool
    ensures { result ≡ list_any (λ word. bytes_eq word.now piece.now) words.now }
{
    for word in words {
        if spells(piece, word) {
            return true;
        }
    }
    false
}

/// Whether the characters are those of an ASCII word.
pub fn spells(piece: &Piece, word: &str) -> bool
    ensures { result ≡ bytes_eq word.now piece.now }
{
    if word.len() != piece.len() as usize {
        return false;
    }
    let mut at = 0;
    for byte in word.as_bytes() {
        if piece.get(at) != Some(*byte as char) {
            return false;
        }
        at += 1;
    }
    piece.get(at).is_none()
}

/// Whether a text is a word that is no identifier.
#[tactic(auto, unfolding(crate::specs::Identifier::is_reserved))]
pub fn is_reserved_text(text: &str) -> bool
    ensures { result ≡ is_reserved (chars text.now) }
{
    match text.chars().next() {
        Some(first) => is_one_of(text, reserved_from(first)),
        None => false,
    }
}

/// Whether a text is one of these ASCII words.
fn is_one_of(text: &str, words: &[&str]) -> bool
    requires { IsTrue (list_all (λ word. list_all is_ascii word.now) words.now) }
    ensures { result ≡ list_any (λ word. bytes_eq word.now (chars text.now)) words.now }
{
    words.contains(&text)
}
