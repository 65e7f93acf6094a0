//! Where a name stands in the code of a text.
ghost use Rattle.std.specs.Prelude.{◌≡◌, ◌+◌, ◌≤◌, IfOk, length};
ghost use Rattle.std.specs.Str.{bytes_eq};
ghost use Rattle.java_tokens.specs.Places.{RiseFrom, is_use_of, places_of};

use crate::identifier::is_identifier_at;
use crate::piece::Piece;
use crate::token::Token;
use crate::tokenizer::next_token;
use ide_text::{Name, Text};
use std::alloc::{AllocError, Global};

/// The offsets of the identifiers of a text that are spelled as a name, in order. Linear in the text: it is cut token
/// by token, and no token and no other name is kept.
pub fn places(alloc: Global, text: &Text, name: &Name) -> Result<Vec<u32>, AllocError>
    ensures value { IfOk result (λ list. list.items ≡ places_of name.now text.now) }

    // So the offsets rise, and lie inside the text.
    ensures rising { IfOk result (λ list. RiseFrom 0 (length text.now) list.items) }
{
    let piece = Piece::whole(text);
    let mut list = Vec::new(alloc);
    let mut at = 0;
    while let Some(token) = next_token(&piece, at) {
        if is_use(text, &token, name) {
            list.push(token.at())?;
        }
        at = token.at() + token.len();
    }
    Ok(list)
}

/// Whether a token is an identifier that is spelled as a name.
fn is_use(text: &Text, token: &Token, name: &Name) -> bool
    requires { token.now.at + token.now.len ≤ length text.now }
    ensures { result ≡ is_use_of name.now text.now token.now }
{
    is_spelled(&Piece::part(text, token.at(), token.len()), name) && is_identifier_at(text, token)
}

/// Whether the characters are those of a name. It ends at the first that differs.
fn is_spelled(piece: &Piece, name: &Name) -> bool
    ensures { result ≡ bytes_eq name.now piece.now }
{
    let mut at = 0;
    for c in name.as_str().chars() {
        if piece.get(at) != Some(c) {
            return false;
        }
        at += 1;
    }
    piece.get(at).is_none()
}
