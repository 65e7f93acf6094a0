//! Pieces of printed lines, each with the text that stands before it.
ghost use Rattle.std.specs.Prelude.{◌≡◌, ◌++◌, OnOk, decimal, encode_utf8_all, string_bytes};

use ide_text::Name;
use itoa::Buffer;
use std::alloc::AllocError;

/// Adds a text, and a number in decimal behind it.
pub fn push_numbered(out: &mut String, before: &str, number: u64) -> Result<(), AllocError>
    ensures { OnOk result
        (string_bytes out.new ≡ string_bytes out.old ++ (before.now ++ decimal number)) }
{
    let mut digits = Buffer::new();
    out.push_str(before)?;
    out.push_str(digits.format(number))
}

/// Adds a text, and a name behind it.
pub fn push_named(out: &mut String, before: &str, name: &Name) -> Result<(), AllocError>
    ensures { OnOk result
        (string_bytes out.new ≡ string_bytes out.old ++ (before.now ++ encode_utf8_all name.now)) }
{
    out.push_str(before)?;
    out.push_str(name.as_str())
}
