//! Names with the paths that they are written as, and paths with what is printed of them.
use crate::{path_of, push_shown};
use ide_text::Name;
use std::alloc::{AllocError, Global};
use std::test::Fail;

/// Names, each with its path.
static WRITTEN: &[(&str, &str)] = &[
    ("src/A.java", "src/A.java"),
    ("a b.java", "a%20b.java"),
    ("\"quoted\"", "%22quoted%22"),
    ("C:\\src\\A.java", "C%3A%5Csrc%5CA.java"),
    ("100%.properties", "100%25.properties"),
    ("é/語.java", "é/語.java"),
    ("two\nlines\u{7F}", "two%0Alines%7F"),
    ("../x", "%2E./x"),
    ("./x/./y/..z", "%2E/x/%2E/y/%2E.z"),
    ("/abs/x", "%2Fabs/x"),
    ("a//b", "a/%2Fb"),
];

/// Paths that names aren't written as, each with what is printed of it.
static SHOWN: &[(&str, &str)] = &[
    ("a%2fb", "a/b"),
    ("%", "%"),
    ("é%4", "é%4"),
    ("%zz%%41", "%zz%A"),
    ("%80%é1%1é", "%80%é1%1é"),
    ("a%00\tb", "a%00%09b"),
];

#[test]
fn written_names(rt: HostRuntime) -> Result<(), Fail> {
    for (name, path) in WRITTEN {
        assert!(rt; is_written(rt.alloc(), *name, *path)?, "{name}");
    }
    assert!(rt; !has_path(rt.alloc(), "")?);
    assert!(rt; !has_path(rt.alloc(), "dir/")?);
    let long = "x".repeat(rt.alloc(), 255)?;
    assert!(rt; has_path(rt.alloc(), long.as_str())?);
    let longer = "x".repeat(rt.alloc(), 256)?;
    assert!(rt; !has_path(rt.alloc(), longer.as_str())?);
    Ok(())
}

#[test]
fn shown_paths(rt: HostRuntime) -> Result<(), Fail> {
    for (path, shown) in SHOWN {
        assert!(rt; is_shown(rt.alloc(), *path, *shown)?, "{path}");
    }
    Ok(())
}

/// Whether a name is written as a path, and printed as it is where it has no control character.
fn is_written(alloc: Global, name: &str, path: &str) -> Result<bool, AllocError> {
    let shown = name
        .replace(alloc, "\n", "%0A")?
        .replace(alloc, "\u{7F}", "%7F")?;
    match path_of(alloc, name)? {
        Some(written) => Ok(written.as_str() == path && is_shown(alloc, path, shown.as_str())?),
        None => Ok(false),
    }
}

/// Whether a name is written as a path at all.
fn has_path(alloc: Global, name: &str) -> Result<bool, AllocError> {
    Ok(path_of(alloc, name)?.is_some())
}

/// Whether a text is printed of a path.
fn is_shown(alloc: Global, path: &str, shown: &str) -> Result<bool, AllocError> {
    let mut out = String::new(alloc);
    push_shown(&mut out, &Name::of(alloc, path)?)?;
    Ok(out.as_str() == shown)
}
