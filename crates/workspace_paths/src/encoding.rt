//! How the name of a file is written as a path.
ghost use Rattle.std.specs.Prelude.{◌≡◌, ◌++◌, ◌<◌, true, IfOk, OnOk, if◌then◌else◌, ◌∷◌, [], encode_utf8_all};
ghost use Rattle.std.specs.Str.{chars};
ghost use Rattle.std.specs.String.{string_bytes};
ghost use Rattle.workspace_paths.specs.Paths.{is_encoded, percent_text, encoded, path_of};

use ide_text::Name;
use percent_encoding::percent_encode_byte;
use std::alloc::{AllocError, Global};
use write_history::is_lawful_path;

/// How the name of a file is written as a path of a workspace, where that is lawful. Linear in its
/// length.
pub fn path_of(alloc: Global, name: &str) -> Result<Option<Name>, AllocError>
    ensures { IfOk result (λ path. path ≡ path_of (chars name.now)) }
{
    let path = Name::of_string(alloc, encoded(alloc, name)?)?;
    Ok(Some(path).filter(|path| is_lawful_path(path)))
}

/// A name in a path.
fn encoded(alloc: Global, name: &str) -> Result<String, AllocError>
    ensures { IfOk result (λ path. string_bytes path ≡ encode_utf8_all (encoded (chars name.now))) }
{
    let mut path = String::with_capacity(alloc, name.len())?;
    let mut begins = true;
    for c in name.chars() {
        push_char(&mut path, c, is_encoded(begins, c))?;
        begins = c == '/';
    }
    Ok(path)
}

/// Whether a character is encoded, where a part begins with it or not.
fn is_encoded(begins: bool, c: char) -> bool
    ensures { result ≡ is_encoded begins c }
{
    c <= ' '
        || c == '\u{7F}'
        || c == '"'
        || c == '\\'
        || c == ':'
        || c == '%'
        || (begins && (c == '.' || c == '/'))
}

/// Adds a character, encoded or as it is.
pub(crate) fn push_char(out: &mut String, c: char, is_encoded: bool) -> Result<(), AllocError>
    requires { is_encoded ≡ true → c < 128 }
    ensures { OnOk result
        (string_bytes out.new ≡ string_bytes out.old
        ++ encode_utf8_all (if is_encoded then percent_text c else c ∷ [])) }
{
    if is_encoded {
        out.push_str(percent_encode_byte(c as u8))
    } else {
        out.push(c)
    }
}
