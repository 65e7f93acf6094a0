//! How far a run, a comment or a literal goes on.
ghost use Rattle.std.specs.Prelude.{◌≡◌, ℕ, ◌+◌, ◌≤◌, ◌∷◌, length, drop};
ghost use Rattle.std.specs.List.{prefix_len};
ghost use Rattle.ide_text.specs.Text.{max_chars};
ghost use Rattle.java_tokens.specs.Chars.{begins_with};
ghost use Rattle.java_tokens.specs.Class.{is_in};
ghost use Rattle.java_tokens.specs.TokenKind.{comment_end, text_block_mark, comment_rest, literal_rest, literal_escape, text_block_rest, text_block_escape};

use crate::chars::Class;
use crate::piece::Piece;
use crate::wide::word_front;

/// Where the longest run of a class that begins at a place ends.
#[inline(always)]
pub fn run_end(piece: &Piece, from: u32, class: Class) -> u32
    ensures { result ≡ from + prefix_len (is_in class) (drop from piece.now) }
{
    match piece.ascii() {
        Some(bytes) => run_end_in_bytes(bytes, from, class),
        None => run_end_in_text(piece, from, class),
    }
}

/// The same over ASCII, in a loop that only reads its bytes; those of a word sixteen at a time.
#[inline(always)]
fn run_end_in_bytes(bytes: &[u8], from: u32, class: Class) -> u32
    requires { length bytes.now ≤ max_chars }
    ensures { result ≡ from + prefix_len (is_in class) (drop from bytes.now) }
{
    let mut at = match class {
        Class::Word => word_front(bytes, from),
        _ => from,
    };
    while let Some(byte) = bytes.get(at as usize) {
        if !class.contains(*byte as char) {
            break;
        }
        at += 1;
    }
    at
}

/// The same over any text.
fn run_end_in_text(piece: &Piece, from: u32, class: Class) -> u32
    ensures { result ≡ from + prefix_len (is_in class) (drop from piece.now) }
{
    let mut at = from;
    while let Some(c) = piece.get(at) {
        if !class.contains(c) {
            break;
        }
        at += 1;
    }
    at
}

/// Where a comment ends whose inside begins at a place.
#[tactic(auto, unfolding(crate::specs::TokenKind::comment_rest))]
pub fn comment_end(piece: &Piece, from: u32) -> u32
    ensures { result ≡ from + comment_rest (drop from piece.now) }
{
    let mut at = piece.skip_to(from, b'*');
    while let Some(c) = piece.get(at) {
        if ends_comment(c, piece, at + 1) {
            return at + 2;
        }
        at = piece.skip_to(at + 1, b'*');
    }
    at
}

/// Whether a character and those from a place on end a comment.
#[inline]
fn ends_comment(c: char, piece: &Piece, behind: u32) -> bool
    requires { behind ≤ max_chars }
    ensures { result ≡ begins_with comment_end (c ∷ drop behind piece.now) }
{
    c == '*' && piece.has(behind, &['/'])
}

/// Where a string or a character ends whose inside begins at a place.
#[tactic(auto, unfolding(crate::specs::TokenKind::literal_rest))]
pub fn literal_end(piece: &Piece, from: u32, quote: char) -> u32
    ensures { result ≡ from + literal_rest quote (drop from piece.now) }
{
    let mut at = from;
    while let Some(c) = piece.get(at) {
        if c == '\n' {
            break;
        }
        at += 1;
        if c == quote {
            break;
        }
        if c == '\\' {
            at = literal_escape_end(piece, at);
        }
    }
    at
}

/// Where the character ends that a backslash right before it takes, in a string or a character.
#[tactic(auto, unfolding(crate::specs::TokenKind::literal_rest, crate::specs::TokenKind::literal_escape))]
fn literal_escape_end(piece: &Piece, at: u32) -> u32
    ensures rest { (quote : ℕ) → result + literal_rest quote (drop result piece.now)
        ≡ at + literal_escape quote (drop at piece.now) }
    ensures forward { at ≤ result }
{
    match piece.get(at) {
        Some(c) if c != '\n' => at + 1,
        _ => at,
    }
}

/// Where a text block ends whose inside begins at a place.
#[tactic(auto, unfolding(crate::specs::TokenKind::text_block_rest))]
pub fn text_block_end(piece: &Piece, from: u32) -> u32
    ensures { result ≡ from + text_block_rest (drop from piece.now) }
{
    let mut at = from;
    while let Some(c) = piece.get(at) {
        if c == '\\' {
            at = text_block_escape_end(piece, at + 1);
        } else if ends_text_block(c, piece, at + 1) {
            return at + 3;
        } else {
            at += 1;
        }
    }
    at
}

/// Whether a character and those from a place on end a text block.
#[inline]
fn ends_text_block(c: char, piece: &Piece, behind: u32) -> bool
    requires { behind ≤ max_chars }
    ensures { result ≡ begins_with text_block_mark (c ∷ drop behind piece.now) }
{
    c == '"' && piece.has(behind, &['"', '"'])
}

/// Where the character ends that a backslash right before it takes, in a text block.
#[tactic(auto, unfolding(crate::specs::TokenKind::text_block_rest, crate::specs::TokenKind::text_block_escape))]
fn text_block_escape_end(piece: &Piece, at: u32) -> u32
    ensures rest { result + text_block_rest (drop result piece.now)
        ≡ at + text_block_escape (drop at piece.now) }
    ensures forward { at ≤ result }
{
    match piece.get(at) {
        Some(_) => at + 1,
        None => at,
    }
}
