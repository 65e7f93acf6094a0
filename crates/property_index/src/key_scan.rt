//! The key of a logical line.
ghost use Rattle.std.specs.Prelude.{◌≡◌, ◌<◌, ◌≤◌, ◌∷◌, [], IfSome, IfNone, IfOk, false, length};
ghost use Rattle.property_index.specs.Keys.{key_in};
ghost use Rattle.property_index.specs.Rest.{inside_from, is_join, left_of};

use crate::characters::{meant_by, stops_key};
use crate::line_scan::{char_at, past_joins};
use ide_text::{Name, Text};
use std::alloc::{AllocError, Global};

/// The key of the logical line that goes on at an offset, and where the key ends. Linear in the key.
pub fn read_key(alloc: Global, text: &Text, from: u32) -> Result<(Name, u32), AllocError>
    requires { is_join (left_of text.now from) ≡ false }
    ensures key { IfOk result (λ read. read.0 ≡ key_in (inside_from (left_of text.now from)).0) }
    ensures rest { IfOk result
        (λ read. (inside_from (left_of text.now read.1)).1
        ≡ (inside_from (left_of text.now from)).1) }
    ensures forward { IfOk result (λ read. from ≤ read.1) }
{
    let mut key = String::new(alloc);
    let mut at = from;
    while let Some((meant, end)) = key_char(text, at) {
        key.push(meant)?;
        at = past_joins(text, end);
    }
    Ok((Name::of_string(alloc, key)?, at))
}

/// The character of a key that stands at an offset, and where it ends; none where the key ends before it.
fn key_char(text: &Text, at: u32) -> Option<(char, u32)>
    requires { is_join (left_of text.now at) ≡ false }
    ensures key { IfSome result (λ read. key_in (inside_from (left_of text.now at)).0
        ≡ read.0 ∷ key_in (inside_from (left_of text.now read.1)).0) }
    ensures rest { IfSome result
        (λ read. (inside_from (left_of text.now read.1)).1
        ≡ (inside_from (left_of text.now at)).1) }
    ensures forward { IfSome result (λ read. (at < read.1) × (at < length text.now)) }
    ensures none { IfNone result (key_in (inside_from (left_of text.now at)).0 ≡ []) }
{
    let c = char_at(text, at)?;
    if c == '\\' {
        let taken = char_at(text, at + 1)?;
        Some((meant_by(taken), at + 2))
    } else if stops_key(c) {
        None
    } else {
        Some((c, at + 1))
    }
}
