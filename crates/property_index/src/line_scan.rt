//! How far natural lines and logical lines go.
ghost use Rattle.std.specs.Prelude.{◌≡◌, ◌<◌, ◌≤◌, suc, ◌∷◌, [], IfSome, IfNone, OnSome, true, false, length};
ghost use Rattle.ide_text.specs.Text.{max_chars};
ghost use Rattle.property_index.specs.Lines.{trimmed};
ghost use Rattle.property_index.specs.Rest.{inside_from, is_at_end, is_join, left_of, lines_left, past_line, width_at};

use crate::characters::is_white_space;
use ide_text::Text;

/// The character at an offset, if the text goes so far.
#[inline]
pub fn char_at(text: &Text, at: u32) -> Option<char>
    ensures some { IfSome result
        (λ c. left_of text.now at ≡ record { code = c; at = at } ∷ left_of text.now (suc at)) }
    ensures inside { OnSome result (at < length text.now) }
    ensures none { IfNone result (left_of text.now at ≡ []) }
    ensures end { IfNone result (length text.now ≤ at) }
    ensures few { length text.now ≤ max_chars }
{
    if at < text.len() {
        Some(text.char_at(at))
    } else {
        None
    }
}

/// Where the white space that begins at an offset ends.
pub fn past_white_space(text: &Text, from: u32) -> u32
    ensures left { left_of text.now result ≡ trimmed (left_of text.now from) }
    ensures forward { from ≤ result }
{
    let mut at = from;
    while let Some(c) = char_at(text, at) {
        if !is_white_space(c) {
            break;
        }
        at += 1;
    }
    at
}

/// Where the next natural line begins behind an offset, or the end.
pub fn past_line(text: &Text, from: u32) -> u32
    ensures left { left_of text.now result ≡ past_line (left_of text.now from) }
    ensures forward { from ≤ result }
{
    let mut at = from;
    while let Some(c) = char_at(text, at) {
        if c == '\n' {
            return at + 1;
        }
        at += 1;
    }
    at
}

/// Where the logical line that goes on at an offset ends, behind its line break.
pub fn past_logical_line(text: &Text, from: u32) -> u32
    ensures left { lines_left (left_of text.now result) ≡ (inside_from (left_of text.now from)).1 }
    ensures forward { from ≤ result }
    ensures grows { from < length text.now → from < result }
{
    let mut at = from;
    while let Some(c) = char_at(text, at) {
        if c == '\n' {
            return at + 1;
        }
        at += width(c);
    }
    at
}

/// How many characters a character begins that stand together in a logical line: a backslash takes the one behind it.
fn width(c: char) -> u32
    ensures { result ≡ width_at c }
{
    if c == '\\' { 2 } else { 1 }
}

/// Where the logical line that goes on at an offset has its next character: past each backslash that ends a natural
/// line, the line break, and the white space that leads the next line.
pub fn past_joins(text: &Text, from: u32) -> u32
    ensures same { inside_from (left_of text.now result) ≡ inside_from (left_of text.now from) }
    ensures past { is_join (left_of text.now result) ≡ false }
    ensures forward { from ≤ result }
{
    let mut at = from;
    while is_join(text, at) {
        at = past_white_space(text, at + 2);
    }
    at
}

/// Whether a backslash stands at an offset that ends its natural line.
fn is_join(text: &Text, at: u32) -> bool
    ensures value { result ≡ is_join (left_of text.now at) }
    ensures inside { result ≡ true → at < length text.now }
    ensures few { length text.now ≤ max_chars }
{
    match char_at(text, at) {
        Some('\\') => is_at_end(text, at + 1),
        _ => false,
    }
}

/// Whether a natural line ends at an offset.
fn is_at_end(text: &Text, at: u32) -> bool
    ensures { result ≡ is_at_end (left_of text.now at) }
{
    match char_at(text, at) {
        Some(c) => c == '\n',
        None => true,
    }
}
