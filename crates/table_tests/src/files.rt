//! Files that are made, written, renamed, put and taken out: `create PATH TEXT`, `write ID TEXT`, `indexed ID`, `remove ID`,
//! `rename ID PATH` and `put ID PATH`, behind each of which it is told which files are live, or that the call can't be made. `copy` lets
//! a copy take the place of all, `at PATH` tells which file is there, and `counts` how many are live and which stamp is next.
use crate::marks::{number_of, text_of, word_of};
use crate::tell::{Tell, tell_all};
use ide_text::{Name, SharedText};
use std::alloc::{AllocError, Global};
use vfs_core::{FileRow, Files};

/// Does the lines from no files on.
pub fn play(alloc: Global, lines: &str, out: &mut String) -> Result<(), AllocError> {
    let mut files = Files::new(alloc);
    tell_all(alloc, &mut files, lines, out)
}

impl Tell for Files {
    fn tell(&mut self, alloc: Global, line: &str, out: &mut String) -> Result<(), AllocError> {
        match word_of(line) {
            ("copy", _) => copy(self),
            ("at", path) => push_found(self, &Name::of(alloc, path)?, out),
            ("counts", _) => push_counts(self, out),
            (word, rest) => tell_call(alloc, self, word, rest, out),
        }
    }
}

/// Lets a copy take the place of files.
fn copy(files: &mut Files) -> Result<(), AllocError> {
    *files = files.copy()?;
    Ok(())
}

/// Adds the id of the live file at a path.
fn push_found(files: &Files, path: &Name, out: &mut String) -> Result<(), AllocError> {
    write!(out, " {:?}", files.by_path(path))
}

/// Adds how many files are live, and the next stamp.
fn push_counts(files: &Files, out: &mut String) -> Result<(), AllocError> {
    let (live, stamp) = (files.live(), files.next_stamp());
    write!(out, " {live} live, next stamp {stamp}")
}

/// Makes a call, and tells which files are live then, or that it can't be made.
fn tell_call(
    alloc: Global,
    files: &mut Files,
    word: &str,
    rest: &str,
    out: &mut String,
) -> Result<(), AllocError> {
    if call(alloc, files, word, rest)? {
        push_files(files, out)
    } else {
        out.push_str(" can't be done")
    }
}

/// Makes a call, and tells whether it could be made.
fn call(alloc: Global, files: &mut Files, word: &str, rest: &str) -> Result<bool, AllocError> {
    let (one, other) = word_of(rest);
    let id = number_of(one);
    match word {
        "create" => create(files, Name::of(alloc, one)?, shared(alloc, other)?),
        "write" => Ok(write(files, id, shared(alloc, other)?)),
        "indexed" => Ok(set_indexed(files, id)),
        "remove" => Ok(remove(files, id)),
        "rename" => rename(files, id, Name::of(alloc, other)?),
        _ => put(files, id, row_of(alloc, other)?),
    }
}

/// A text that may be shared.
fn shared(alloc: Global, text: &str) -> Result<SharedText, AllocError> {
    SharedText::new(alloc, text_of(alloc, text)?)
}

/// A row of three letters at a path, with the stamp 1.
fn row_of(alloc: Global, path: &str) -> Result<FileRow, AllocError> {
    Ok(FileRow {
        path: Name::of(alloc, path)?,
        content: shared(alloc, "put")?,
        stamp: 1,
        indexed: None,
    })
}

/// Makes a file where the path is free.
fn create(files: &mut Files, path: Name, content: SharedText) -> Result<bool, AllocError> {
    files.reserve()?;
    files.reserve_path(&path)?;
    if files.made() > 9 || files.next_stamp() > 99 || files.by_path(&path).is_some() {
        return Ok(false);
    }
    files.create(path, content);
    Ok(true)
}

/// Gives a file other content where it is live.
fn write(files: &mut Files, id: u32, content: SharedText) -> bool {
    let may = files.by_id(id).is_some() && files.next_stamp() < 99;
    if may {
        files.write(id, content);
    }
    may
}

/// Lets a file count as indexed where it is live.
fn set_indexed(files: &mut Files, id: u32) -> bool {
    let may = files.by_id(id).is_some();
    if may {
        files.set_indexed(id);
    }
    may
}

/// Takes a file out where it is live.
fn remove(files: &mut Files, id: u32) -> bool {
    let may = files.by_id(id).is_some();
    if may {
        files.remove(id);
    }
    may
}

/// Gives a file another path where it is live and the path is free.
fn rename(files: &mut Files, id: u32, to: Name) -> Result<bool, AllocError> {
    files.reserve_path(&to)?;
    if files.by_id(id).is_none() || files.next_stamp() > 99 || files.by_path(&to).is_some() {
        return Ok(false);
    }
    files.rename(id, to);
    Ok(true)
}

/// Puts a row, or none, at an id that was given, where its path is free; the path of the row that was there may go.
fn put(files: &mut Files, id: u32, row: FileRow) -> Result<bool, AllocError> {
    files.reserve_path(&row.path)?;
    if id == 0
        || id as usize > files.made()
        || files.by_path(&row.path).is_some()
        || row.stamp >= files.next_stamp()
        || row.indexed.is_some()
    {
        return Ok(false);
    }
    files.put(id, Some(row));
    Ok(true)
}

/// Adds the live files, each by its id, path, the number of its characters and its stamp, with a star where it is indexed
/// at that stamp.
fn push_files(files: &Files, out: &mut String) -> Result<(), AllocError> {
    for id in 1..=files.made() as u32 {
        if let Some(row) = files.by_id(id) {
            push_file(id, row, out)?;
        }
    }
    Ok(())
}

/// Adds a live file.
fn push_file(id: u32, row: &FileRow, out: &mut String) -> Result<(), AllocError> {
    let star = if row.indexed == Some(row.stamp) {
        "*"
    } else {
        ""
    };
    let (path, len, stamp) = (&row.path, row.content.len(), row.stamp);
    write!(out, " {id} {path} {len} {stamp}{star};")
}
