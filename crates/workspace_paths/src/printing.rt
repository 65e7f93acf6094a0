//! The name that a path stands for, as it is printed.
ghost use Rattle.std.specs.Prelude.{◌≡◌, ◌++◌, ◌<◌, ◌≤◌, ◌∷◌, [], length, OnOk, OnSome, MatchOption, unwrap_or, IsUtf8, encode_utf8_all};
ghost use Rattle.std.specs.Str.{chars};
ghost use Rattle.std.specs.Str.Iter.{chars_rest};
ghost use Rattle.std.specs.String.{string_bytes};
ghost use Rattle.workspace_paths.specs.Paths.{escaped_by, decoded, shown};

use crate::encoding::push_char;
use ide_text::Name;
use std::alloc::AllocError;
use std::str::Chars;

/// Adds the name that a path stands for, as it is printed: a control character is encoded, so that
/// it is one line. Linear in the path's length.
pub fn push_shown(out: &mut String, path: &Name) -> Result<(), AllocError>
    ensures { OnOk result
        (string_bytes out.new ≡ string_bytes out.old ++ encode_utf8_all (shown path.now)) }
{
    let mut rest = path.as_str().chars();
    while let Some(c) = next_decoded(&mut rest) {
        push_char(out, c, c.is_ascii_control())?;
    }
    Ok(())
}

/// Takes off the front of a path what its name's next character is written as.
fn next_decoded(rest: &mut Chars<'_>) -> Option<char>
    requires { IsUtf8 (chars_rest rest.old) }
    ensures utf8 { IsUtf8 (chars_rest rest.new) }
    ensures value { MatchOption result (decoded (chars (chars_rest rest.old)) ≡ [])
        (λ c. decoded (chars (chars_rest rest.old)) ≡ c ∷ decoded (chars (chars_rest rest.new))) }
    ensures shorter { OnSome result (length (chars_rest rest.new) < length (chars_rest rest.old)) }
{
    let c = rest.next()?;
    if c == '%' {
        return Some(next_escaped(rest).unwrap_or('%'));
    }
    Some(c)
}

/// Takes the two digits of a character off what stands behind a percent sign, where it begins with
/// such.
fn next_escaped(rest: &mut Chars<'_>) -> Option<char>
    requires { IsUtf8 (chars_rest rest.old) }
    ensures utf8 { IsUtf8 (chars_rest rest.new) }
    ensures value { decoded (37 ∷ chars (chars_rest rest.old))
        ≡ unwrap_or result 37 ∷ decoded (chars (chars_rest rest.new)) }
    ensures no_longer { length (chars_rest rest.new) ≤ length (chars_rest rest.old) }
{
    let mut ahead = rest.as_str().chars();
    let high = ahead.next()?;
    let low = ahead.next()?;
    let c = escaped_by(high, low)?;
    *rest = ahead;
    Some(c)
}

/// The character below 128 that two characters behind a percent sign stand for, if they are digits
/// of one.
fn escaped_by(high: char, low: char) -> Option<char>
    ensures { result ≡ escaped_by high low }
{
    let code = high.to_digit(16)? * 16 + low.to_digit(16)?;
    if code < 128 {
        Some(code as u8 as char)
    } else {
        None
    }
}
