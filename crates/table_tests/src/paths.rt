//! Paths and marks. A line of `paths` is a path, of which it is told whether it is lawful, the kind of a file there, and whether that is
//! Java. A line of `marks` has marks of Java files that aren't open, at the stamp 4, each as `FILE:INDEXED`, or `FILE:` where it never
//! was; it is told which is the lowest unindexed file, how many are unready, and whether all is smart.
use crate::marks::number_of;
use dumb_mode::{Mark, is_java, is_smart, kind_of, lowest_unindexed, unready_count};
use ide_text::Name;
use std::alloc::{AllocError, Global};
use write_history::is_lawful_path;

/// Tells of paths.
pub fn tell_path(alloc: Global, line: &str, out: &mut String) -> Result<(), AllocError> {
    let path = Name::of(alloc, line)?;
    out.push_str(if is_lawful_path(&path) { " lawful" } else { "" })?;
    if let Some(kind) = kind_of(&path) {
        write!(out, " {kind:?}")?;
    }
    out.push_str(if is_java(&path) { " java" } else { "" })
}

/// Tells of marks.
pub fn tell_marks(alloc: Global, line: &str, out: &mut String) -> Result<(), AllocError> {
    let marks = marks_of(alloc, line)?;
    if marks.len() > 9 {
        return out.push_str(" too many");
    }
    let lowest = lowest_unindexed(&marks);
    let unready = unready_count(&marks);
    let smart = is_smart(&marks);
    write!(out, " {lowest:?}, {unready} unready, smart {smart}")
}

/// The marks of a line.
fn marks_of(alloc: Global, line: &str) -> Result<Vec<Mark>, AllocError> {
    let mut marks = Vec::new(alloc);
    for word in line.split(" ") {
        let (file, indexed) = word.split_once(":").unwrap_or((word, ""));
        marks.push(Mark {
            file: number_of(file),
            java: true,
            docs_open: false,
            present: 4,
            indexed: indexed.parse::<u64>().ok(),
        })?;
    }
    Ok(marks)
}
