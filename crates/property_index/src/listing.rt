//! The keys of a text.
ghost use Rattle.std.specs.Prelude.{◌≡◌, ◌<◌, ◌≤◌, ◌++◌, ◌∷◌, suc, IfOk, OnOk, length};
ghost use Rattle.std.specs.List.{flat_map};
ghost use Rattle.ide_text.specs.Text.{max_chars};
ghost use Rattle.property_index.specs.Keys.{keys_in, keys_left, keys_of, listed_key};
ghost use Rattle.property_index.specs.Lines.{listed};
ghost use Rattle.property_index.specs.Rest.{inside_from, left_of};

use crate::characters::{begins_comment, is_blank};
use crate::key_scan::read_key;
use crate::line_scan::{char_at, past_joins, past_line, past_logical_line};
use ide_text::{Name, Text};
use std::alloc::{AllocError, Global};

/// The keys of a text, each with the offset of its first character, in order. Linear in the text.
#[tactic(auto, unfolding(crate::specs::Keys::keys_of))]
pub fn property_keys(alloc: Global, text: &Text) -> Result<Vec<(Name, u32)>, AllocError>
    ensures { IfOk result (λ keys. keys.items ≡ keys_of text.now) }
{
    let mut keys = Vec::new(alloc);
    let mut at = 0;
    while let Some(first) = char_at(text, at) {
        at = add_line(&mut keys, text, at, first)?;
    }
    Ok(keys)
}

/// Adds the key of the line that begins at an offset with a character, if it has one, and gives the offset behind what
/// was read: a character of white space or a line break, a comment, or a logical line.
fn add_line(
    keys: &mut Vec<(Name, u32)>,
    text: &Text,
    at: u32,
    first: char,
) -> Result<u32, AllocError>
    requires stands { left_of text.now at
        ≡ record { code = first; at = at } ∷ left_of text.now (suc at) }
    requires inside { at < length text.now }
    requires few { length text.now ≤ max_chars }
    ensures added { IfOk result (λ end. keys.new.items ++ keys_left (left_of text.now end)
        ≡ keys.old.items ++ keys_left (left_of text.now at)) }
    ensures forward { IfOk result (λ end. at < end) }
{
    if is_blank(first) {
        Ok(at + 1)
    } else if begins_comment(first) {
        Ok(past_line(text, at + 1))
    } else {
        add_key(keys, text, at)
    }
}

/// Adds the key of the logical line that goes on at an offset, if it has a character, and gives the offset behind the line.
fn add_key(keys: &mut Vec<(Name, u32)>, text: &Text, from: u32) -> Result<u32, AllocError>
    requires { from < length text.now }
    ensures added { IfOk result (λ end. keys.new.items ++ keys_left (left_of text.now end)
        ≡ keys.old.items ++ flat_map keys_in (listed (inside_from (left_of text.now from)))) }
    ensures forward { IfOk result (λ end. from < end) }
{
    let at = past_joins(text, from);
    let (key, end) = read_key(*keys.allocator(), text, at)?;
    list_key(keys, key, at)?;
    Ok(past_logical_line(text, end))
}

/// Adds a key with its offset, if it has a character.
fn list_key(keys: &mut Vec<(Name, u32)>, key: Name, at: u32) -> Result<(), AllocError>
    ensures { OnOk result (keys.new.items ≡ keys.old.items ++ listed_key key at) }
{
    if !key.is_empty() {
        keys.push((key, at))?;
    }
    Ok(())
}
