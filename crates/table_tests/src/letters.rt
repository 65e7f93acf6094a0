//! An index over letters, its changes, and the rows that stand under a letter.
//!
//! `put FILE L=N ..` gives a file rows; `put-after-removal L=N ..` gives file 3 rows, for which room was made before file 7 was taken
//! out; `make-and-release FILE L=N ..` makes room for rows, and gives it up; `shows L` tells the files and numbers under a letter.
//! `copy` makes a copy, and a line behind that word is done to it.
ghost use Rattle.std.specs.Prelude.{◌≡◌, IfOk};

use crate::marks::{number_of, word_of};
use crate::tell::{Tell, tell_all};
use file_index::{Indexer, Inverted, KeyRows};
use std::alloc::{AllocError, Global};
use std::collections::BTreeMap;

/// An index whose inputs are rows themselves.
#[derive(Clone, Copy, Drop)]
pub struct Letters;

impl Indexer for Letters {
    type Input = KeyRows<char, u8>;

    type Key = char;

    type Value = u8;

    ghost rows_of = { λ rows. rows };

    ghost rows_version = { 1 };

    fn version(&self) -> u8 {
        1
    }

    fn rows(
        &self,
        alloc: Global,
        input: &KeyRows<char, u8>,
    ) -> Result<KeyRows<char, u8>, AllocError> {
        Ok(KeyRows::from_ordered(Vec::from_slice(alloc, input.as_slice())?))
    }

    fn copy_key(&self, _alloc: Global, key: &char) -> Result<char, AllocError> {
        Ok(*key)
    }

    fn copy_value(&self, _alloc: Global, value: &u8) -> Result<u8, AllocError> {
        Ok(*value)
    }
}

/// An index, and the copy that was made of it last.
#[derive(Drop)]
struct Copied {
    index: Inverted<Letters>,
    copy: Inverted<Letters>,
}

/// Does the lines from an index without files on.
pub fn play(alloc: Global, lines: &str, out: &mut String) -> Result<(), AllocError> {
    let mut copied = Copied {
        index: Inverted::new(alloc, Letters),
        copy: Inverted::new(alloc, Letters),
    };
    tell_all(alloc, &mut copied, lines, out)
}

impl Tell for Copied {
    fn tell(&mut self, alloc: Global, line: &str, out: &mut String) -> Result<(), AllocError> {
        match word_of(line) {
            ("copy", "") => copy(&self.index, &mut self.copy),
            ("copy", line) => perform(alloc, &mut self.copy, line, out),
            _ => perform(alloc, &mut self.index, line, out),
        }
    }
}

/// Puts a copy of an index in the place of another one.
fn copy(index: &Inverted<Letters>, copy: &mut Inverted<Letters>) -> Result<(), AllocError> {
    *copy = index.copy()?;
    Ok(())
}

/// Does one line.
fn perform(
    alloc: Global,
    index: &mut Inverted<Letters>,
    line: &str,
    out: &mut String,
) -> Result<(), AllocError> {
    match word_of(line) {
        ("shows", letter) => show(index, letter_of(letter), out),
        ("put-after-removal", pairs) => put_after_a_removal(index, rows_of(alloc, pairs)?),
        (word, rest) => change(alloc, index, word, rest),
    }
}

/// Gives a file rows, or makes room for them and gives it up.
fn change(
    alloc: Global,
    index: &mut Inverted<Letters>,
    word: &str,
    rest: &str,
) -> Result<(), AllocError> {
    let (file, pairs) = word_of(rest);
    let rows = rows_of(alloc, pairs)?;
    match word {
        "put" => put(index, number_of(file), rows),
        _ => make_and_release(index, number_of(file), &rows),
    }
}

/// Rows of letters and numbers.
fn rows_of(alloc: Global, pairs: &str) -> Result<KeyRows<char, u8>, AllocError> {
    let mut map = BTreeMap::new(alloc);
    for pair in pairs.split(" ") {
        let (letter, number) = pair.split_once("=").unwrap_or((pair, "0"));
        map.insert(letter_of(letter), number.parse::<u8>().unwrap_or(0))?;
    }
    KeyRows::from_map(alloc, map)
}

/// The first letter of a word.
fn letter_of(word: &str) -> char {
    word.chars().next().unwrap_or(' ')
}

/// Gives a file rows.
fn put(
    index: &mut Inverted<Letters>,
    file: u32,
    rows: KeyRows<char, u8>,
) -> Result<(), AllocError> {
    index.reserve(file, &rows)?;
    index.replace(file, rows);
    Ok(())
}

/// Gives file 3 rows, for which room was made before file 7 was taken out.
fn put_after_a_removal(
    index: &mut Inverted<Letters>,
    rows: KeyRows<char, u8>,
) -> Result<(), AllocError> {
    index.reserve(3, &rows)?;
    index.remove(7);
    index.replace(3, rows);
    Ok(())
}

/// Makes room for rows of a file, and gives it up.
fn make_and_release(
    index: &mut Inverted<Letters>,
    file: u32,
    rows: &KeyRows<char, u8>,
) -> Result<(), AllocError> {
    index.reserve(file, rows)?;
    index.release(file, rows);
    Ok(())
}

/// Tells the files and numbers under a letter, in order.
fn show(index: &Inverted<Letters>, letter: char, out: &mut String) -> Result<(), AllocError> {
    for (file, number) in index.rows(&letter) {
        write!(out, " {file}={number}")?;
    }
    Ok(())
}
