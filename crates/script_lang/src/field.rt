//! The fields of a line.
ghost use Rattle.std.specs.Prelude.{◌≡◌, IfOk, option_map};
ghost use Rattle.std.specs.Str.{chars};
ghost use Rattle.script_lang.specs.Fields.{parts_at_space, path_of, filled, number_of, is_plain};

use ide_text::Name;
use std::alloc::{AllocError, Global};

/// The text before the first space and the text after it, where there is a space.
pub(crate) fn parts_at_space(text: &str) -> Option<(&str, &str)>
    ensures { option_map (λ p. (chars p.0.now, chars p.1.now)) result
        ≡ parts_at_space (chars text.now) }
{
    text.split_once(' ')
}

/// The path that a field is: any characters but spaces, and at least one.
pub(crate) fn path_of(alloc: Global, field: &str) -> Result<Option<Name>, AllocError>
    ensures { IfOk result (λ path. path ≡ path_of (chars field.now)) }
{
    match parts_at_space(field) {
        Some(_) => Ok(None),
        None => filled(alloc, field),
    }
}

/// A field, unless it is empty.
fn filled(alloc: Global, field: &str) -> Result<Option<Name>, AllocError>
    ensures { IfOk result (λ path. path ≡ filled (chars field.now)) }
{
    if field.is_empty() {
        return Ok(None);
    }
    Ok(Some(Name::of(alloc, field)?))
}

/// The number whose decimal digits a field is: no sign and no zero stands before them.
pub(crate) fn number_of(field: &str) -> Option<u32>
    ensures { result ≡ number_of (chars field.now) }
{
    if !is_plain(field.as_bytes()) {
        return None;
    }
    field.parse().ok()
}

/// Whether there are bytes, and they begin neither with a plus sign nor with a zero before other bytes.
fn is_plain(digits: &[u8]) -> bool
    ensures { result ≡ is_plain digits.now }
{
    match digits.split_first() {
        Some((first, rest)) => *first != b'+' && (*first != b'0' || rest.is_empty()),
        None => false,
    }
}
