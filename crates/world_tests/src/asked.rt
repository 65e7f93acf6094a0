//! Questions about a name, and what their answers show.
use ide_text::Name;
use queries::Query;
use query_engine::{Finding, LevelRow, PlaceRow};
use std::alloc::{AllocError, Global};

/// A question about a name or a key.
#[derive(Clone, Copy)]
pub enum Asked {
    Class(&'static str),
    Usages(&'static str),
    Inheritors(&'static str),
    Key(&'static str),
}

/// The question itself.
pub fn query_of(alloc: Global, asked: Asked) -> Result<Query, AllocError> {
    Ok(match asked {
        Asked::Class(name) => Query::Class {
            name: Name::of(alloc, name)?,
        },
        Asked::Usages(name) => Query::Usages {
            name: Name::of(alloc, name)?,
        },
        Asked::Inheritors(name) => Query::Inheritors {
            name: Name::of(alloc, name)?,
        },
        Asked::Key(key) => Query::Key {
            key: Name::of(alloc, key)?,
        },
    })
}

/// How the paths of the files end that the question is about.
pub fn extension_of(asked: Asked) -> &'static str {
    match asked {
        Asked::Key(_) => "properties",
        _ => "java",
    }
}

/// The number of rows of an answer, if it has rows.
pub fn row_count(answer: &Finding) -> Option<usize> {
    match answer {
        Finding::Rows { rows } => Some(rows.len()),
        Finding::Usages { rows, .. } => Some(rows.len()),
        Finding::Inheritors { rows } => Some(rows.len()),
        Finding::Keys { rows } => Some(rows.len()),
        _ => None,
    }
}

/// Adds the rows of an answer: of usages and keys the places, of inheritors places and levels.
pub fn push_rows(alloc: Global, answer: &Finding, out: &mut String) -> Result<(), AllocError> {
    match answer {
        Finding::Usages { rows, .. } => push_places(alloc, rows.as_slice(), out),
        Finding::Inheritors { rows } => push_levels(alloc, rows.as_slice(), out),
        Finding::Keys { rows } => push_places(alloc, rows.as_slice(), out),
        _ => out.push_str("other rows; "),
    }
}

/// Adds places.
fn push_places(alloc: Global, rows: &[PlaceRow], out: &mut String) -> Result<(), AllocError> {
    for row in rows {
        let path = &row.path;
        let line = row.line;
        let column = row.column;
        out.push_str(format!(in alloc; "{path}:{line}:{column}; ")?.as_str())?;
    }
    Ok(())
}

/// Adds types with their levels.
fn push_levels(alloc: Global, rows: &[LevelRow], out: &mut String) -> Result<(), AllocError> {
    for found in rows {
        let path = &found.row.path;
        let line = found.row.line;
        let column = found.row.column;
        let name = &found.row.name;
        let level = found.level;
        out.push_str(format!(in alloc; "{path}:{line}:{column} ")?.as_str())?;
        out.push_str(format!(in alloc; "{name} {level}; ")?.as_str())?;
    }
    Ok(())
}
