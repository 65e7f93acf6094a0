//! Which files are indexed, and by what: a file's kind is told by its path.
ghost use Rattle.std.specs.Prelude.{◌≡◌};
ghost use Rattle.std.specs.Str.{chars};
ghost use Rattle.dumb_mode.specs.Filter.{is_java, is_properties, is_same_kind, kind_of, passes_filter};

use ide_text::Name;

/// What an indexed file's text is. The codes of the kinds are 1 and 2 in stored bytes.
#[derive(Clone, Copy, Debug, PartialEq, Eq, Drop)]
pub enum FileKind {
    /// Java: the path ends in `.java`.
    Java,
    /// Properties, keys with values: the path ends in `.properties`.
    Properties,
}

/// The kind of a file at a path, which is none where the path doesn't pass the filter of the indexes.
pub fn kind_of(path: &Name) -> Option<FileKind>
    ensures { result ≡ kind_of path.now }
{
    if is_java(path) {
        Some(FileKind::Java)
    } else if is_properties(path) {
        Some(FileKind::Properties)
    } else {
        None
    }
}

/// Whether two files are of one kind, or both of none.
pub fn is_same_kind(kind: Option<FileKind>, other: Option<FileKind>) -> bool
    ensures { result ≡ is_same_kind kind other }
{
    kind == other
}

/// Whether a path passes the filter of the indexes: whether it ends in `.java` or `.properties`.
pub fn passes_filter(path: &Name) -> bool
    ensures { result ≡ passes_filter path.now }
{
    kind_of(path).is_some()
}

/// Whether a path ends in `.java`.
pub fn is_java(path: &Name) -> bool
    ensures { result ≡ is_java path.now }
{
    ends_in_java(path.as_str())
}

/// Whether a path ends in `.properties`.
fn is_properties(path: &Name) -> bool
    ensures { result ≡ is_properties path.now }
{
    ends_in_properties(path.as_str())
}

/// Whether a text ends in `.java`.
fn ends_in_java(path: &str) -> bool
    ensures { result ≡ is_java (chars path.now) }
{
    path.ends_with(".java")
}

/// Whether a text ends in `.properties`.
fn ends_in_properties(path: &str) -> bool
    ensures { result ≡ is_properties (chars path.now) }
{
    path.ends_with(".properties")
}
