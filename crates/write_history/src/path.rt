//! Lawful paths.
ghost use Rattle.std.specs.Prelude.{◌≡◌, not};
ghost use Rattle.std.specs.List.{list_all};
ghost use Rattle.std.specs.Str.{chars};
ghost use Rattle.write_history.specs.Path.{is_barred, is_part, parts_of, is_path};

use ide_text::Name;

/// The most characters of a path.
const MAX_PATH: usize = 255;

/// Whether a file may have the path. Linear in its length.
pub fn is_lawful_path(path: &Name) -> bool
    ensures { result ≡ is_path path.now }
{
    !path.is_empty()
        && path.len() <= MAX_PATH
        && has_no_barred(path.as_str())
        && has_parts(path.as_str())
}

/// Whether no character is barred from paths.
fn has_no_barred(path: &str) -> bool
    ensures { result ≡ list_all (λ c. not (is_barred c)) (chars path.now) }
{
    path.chars().all(|c| !is_barred(c))
}

/// Whether each part between slashes names something.
fn has_parts(path: &str) -> bool
    ensures { result ≡ list_all is_part (parts_of (chars path.now)) }
{
    path.split('/').all(is_part)
}

fn is_barred(c: char) -> bool
    ensures { result ≡ is_barred c }
{
    c <= ' ' || c == '\u{7F}' || c == '"' || c == '\\' || c == ':'
}

/// Whether a part names something. Its bytes decide.
fn is_part(part: &str) -> bool
    ensures { result ≡ is_part part.now }
{
    !part.is_empty() && part != "." && part != ".."
}
