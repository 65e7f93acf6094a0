//! The tokens of a text.
ghost use Rattle.std.specs.Prelude.{◌≡◌, ◌+◌, ◌<◌, ◌≤◌, [], ◌∷◌, IfSome, IfNone, IfOk, All, length, drop};
ghost use Rattle.std.specs.Char.{is_ascii_digit};
ghost use Rattle.ide_text.specs.Text.{max_chars};
ghost use Rattle.java_tokens.specs.Chars.{slash, double_quote, begins_word, first_passes};
ghost use Rattle.java_tokens.specs.TokenKind.{kind_at, length_of};
ghost use Rattle.java_tokens.specs.Tokens.{AreTokensFrom, IsInside, tokens_past, tokens_of};

use crate::chars::{Class, begins_word};
use crate::kind::TokenKind;
use crate::piece::Piece;
use crate::scan::{comment_end, literal_end, run_end, text_block_end};
use crate::token::Token;
use ide_text::Text;
use std::alloc::{AllocError, Global};

/// The tokens of a text, in order. Linear in the text.
pub fn tokens(alloc: Global, text: &Text) -> Result<Vec<Token>, AllocError>
    ensures value { IfOk result (λ list. list.items ≡ tokens_of text.now) }

    // So each stands behind white space, is of the first kind that fits, and has its whole length.
    ensures cut { IfOk result (λ list. AreTokensFrom 0 text.now list.items) }
    ensures inside { IfOk result (λ list. All (IsInside text.now) list.items) }
{
    let piece = Piece::whole(text);
    // Code seldom has more than a token in two characters; where it does, the list grows.
    let mut list = Vec::with_capacity(alloc, text.len() as usize / 2)?;
    let mut at = 0;
    while let Some(token) = next_token(&piece, at) {
        list.push(token)?;
        at = token.at() + token.len();
    }
    Ok(list)
}

/// The first token that begins at a place or after it, if there is one.
#[inline(always)]
pub fn next_token(piece: &Piece, from: u32) -> Option<Token>
    requires { from ≤ length piece.now }
    ensures some { IfSome result (λ t. tokens_past 0 from (drop from piece.now)
        ≡ t ∷ tokens_past 0 (t.at + t.len) (drop (t.at + t.len) piece.now)) }
    ensures goes_on { IfSome result
        (λ t. (from < t.at + t.len) × (t.at + t.len ≤ length piece.now)) }
    ensures few { length piece.now ≤ max_chars }
    ensures none { IfNone result (tokens_past 0 from (drop from piece.now) ≡ []) }
{
    let at = run_end(piece, from, Class::WhiteSpace);
    if at >= piece.len() {
        return None;
    }
    let kind = kind_at(piece, at);
    let end = token_end(piece, at, kind);
    Some(Token::of(kind, at, end - at))
}

/// The kind of the token that begins at a place.
#[inline(always)]
#[tactic(auto, unfolding(crate::specs::TokenKind::kind_at))]
fn kind_at(piece: &Piece, at: u32) -> TokenKind
    ensures { result ≡ kind_at (drop at piece.now) }
{
    match piece.get(at) {
        Some(first) => kind_from(first, piece, at + 1),
        None => TokenKind::Punct,
    }
}

/// The kind of a token, by its first character and the place behind that.
#[inline(always)]
#[tactic(auto, unfolding(crate::specs::TokenKind::kind_at))]
fn kind_from(first: char, piece: &Piece, behind: u32) -> TokenKind
    requires { behind ≤ max_chars }
    ensures { result ≡ kind_at (first ∷ drop behind piece.now) }
{
    if first == '/' {
        kind_from_slash(piece, behind)
    } else if first == '"' {
        kind_from_quote(piece, behind)
    } else if first == '\'' {
        TokenKind::Char
    } else if begins_word(first) {
        TokenKind::Word
    } else if first.is_ascii_digit() || (first == '.' && digit_at(piece, behind)) {
        TokenKind::Number
    } else {
        TokenKind::Punct
    }
}

/// The kind of a token that begins with a slash, by what stands behind it.
#[tactic(auto, unfolding(crate::specs::TokenKind::kind_at))]
fn kind_from_slash(piece: &Piece, behind: u32) -> TokenKind
    requires { behind ≤ max_chars }
    ensures { result ≡ kind_at (slash ∷ drop behind piece.now) }
{
    if piece.has(behind, &['/']) {
        TokenKind::LineComment
    } else if piece.has(behind, &['*']) {
        TokenKind::BlockComment
    } else {
        TokenKind::Punct
    }
}

/// The kind of a token that begins with a double quote, by what stands behind it.
#[tactic(auto, unfolding(crate::specs::TokenKind::kind_at))]
fn kind_from_quote(piece: &Piece, behind: u32) -> TokenKind
    requires { behind ≤ max_chars }
    ensures { result ≡ kind_at (double_quote ∷ drop behind piece.now) }
{
    if piece.has(behind, &['"', '"']) {
        TokenKind::TextBlock
    } else {
        TokenKind::Str
    }
}

/// Whether a word begins at a place.
pub fn begins_word_at(piece: &Piece, at: u32) -> bool
    ensures { result ≡ first_passes begins_word (drop at piece.now) }
{
    match piece.get(at) {
        Some(c) => begins_word(c),
        None => false,
    }
}

/// Whether a digit stands at a place.
fn digit_at(piece: &Piece, at: u32) -> bool
    ensures { result ≡ first_passes is_ascii_digit (drop at piece.now) }
{
    match piece.get(at) {
        Some(c) => c.is_ascii_digit(),
        None => false,
    }
}

/// Where the token of a kind that begins at a place ends.
#[inline(always)]
#[tactic(auto, unfolding(crate::specs::TokenKind::length_of))]
fn token_end(piece: &Piece, at: u32, kind: TokenKind) -> u32
    requires { at ≤ max_chars }
    ensures { result ≡ at + length_of kind (drop at piece.now) }
{
    match kind {
        TokenKind::LineComment => piece.skip_to(at, b'\n'),
        TokenKind::BlockComment => comment_end(piece, at + 2),
        TokenKind::TextBlock => text_block_end(piece, at + 3),
        TokenKind::Str => literal_end(piece, at + 1, '"'),
        TokenKind::Char => literal_end(piece, at + 1, '\''),
        TokenKind::Word => run_end(piece, at, Class::Word),
        TokenKind::Number => run_end(piece, at, Class::Number),
        TokenKind::Punct => at + 1,
    }
}
