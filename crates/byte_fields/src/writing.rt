//! Fields to bytes.
ghost use Rattle.std.specs.Prelude.{◌≡◌, ◌<◌, ◌^◌, ◌++◌, length, true, OnOk, encode_utf8_all};
ghost use Rattle.std.specs.Str.{all_scalars};
ghost use Rattle.byte_fields.specs.Spelling.{number, name};

use ide_text::Name;
use std::alloc::AllocError;

/// Puts a number at the end: four bytes, the greatest first.
pub fn put_number(out: &mut Vec<u8>, n: u32) -> Result<(), AllocError>
    ensures { OnOk result (out.new.items ≡ out.old.items ++ number n) }
{
    out.extend_from_slice(&n.to_be_bytes())
}

/// Puts a name at the end: the number of its bytes of UTF-8, and these bytes.
pub fn put_name(out: &mut Vec<u8>, characters: &Name) -> Result<(), AllocError>
    requires { length (encode_utf8_all characters.now) < 2 ^ 32 }
    ensures written { OnOk result (out.new.items ≡ out.old.items ++ name characters.now) }
    ensures scalars { OnOk result (all_scalars characters.now ≡ true) }
{
    let text = characters.as_str();
    put_number(out, text.len() as u32)?;
    out.extend_from_slice(text.as_bytes())
}
