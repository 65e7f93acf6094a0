//! Answers, and why none is given.
ghost use Rattle.std.specs.Prelude.{◌≡◌, ◌++◌, ◌∷◌, [], OnOk, OnErr, length};

use ide_text::Name;
use std::alloc::{AllocError, Global};
use std::marker::Model;
use stub_tree::Names;

/// A declaration of a file.
#[derive(Drop)]
pub struct Row {
    /// The file's id.
    pub file: u32,
    /// The file's path.
    pub path: Name,
    /// The line of the declaration's name in the text that searches see, from 1.
    pub line: u32,
    /// The column of its name, from 1.
    pub column: u32,
    /// In how many types it stands, one in another.
    pub depth: u8,
    /// The code of its kind, as `StubKind::code` gives it.
    pub kind: u8,
    /// Its name.
    pub name: Name,
    /// The names behind `extends` and `implements`, in order and repeats kept.
    pub supers: Names,
}

/// A file that has a word.
#[derive(Drop)]
pub struct WordRow {
    /// The file's id.
    pub file: u32,
    /// The file's path.
    pub path: Name,
    /// Where the word stands: the sum of 1 for code, 2 for comments and 4 for strings.
    pub mask: u8,
}

/// A place in a file's text.
#[derive(Drop)]
pub struct PlaceRow {
    /// The file's id.
    pub file: u32,
    /// The file's path.
    pub path: Name,
    /// Its line in the text that searches see, from 1.
    pub line: u32,
    /// Its column, from 1.
    pub column: u32,
}

/// A type that comes from a name.
#[derive(Drop)]
pub struct LevelRow {
    /// The length of the shortest chain of types from the name to it, itself counted.
    pub level: u32,
    /// Its declaration.
    pub row: Row,
}

/// Rows of an answer: file by file in order of ids, and within a file in the order of its text; rows with levels, level
/// by level.
#[derive(Drop)]
pub struct RowList<T> {
    rows: Vec<T>,
}

impl<T> Model for RowList<T> {
    ghost use Rattle.std.specs.Prelude.{List};

    ghost Value = { List T };

    ghost view = { λ r. r.rows.items };
}

impl<T: Drop> RowList<T> {
    /// No row.
    pub(crate) fn new(alloc: Global) -> RowList<T>
        ensures { result ≡ [] }
    {
        RowList {
            rows: Vec::new(alloc),
        }
    }

    /// These rows.
    pub(crate) fn of(rows: Vec<T>) -> RowList<T>
        ensures { result ≡ rows.items }
    {
        RowList { rows }
    }

    /// Puts a row at the end. On an error the list is as before. Many answers have one row, and stay till the run ends, so
    /// there is room for no more than one at first.
    pub(crate) fn push(&mut self, row: T) -> Result<(), AllocError>
        ensures ok { OnOk result (self.new ≡ self.old ++ row ∷ []) }
        ensures err { OnErr result (self.new ≡ self.old) }
    {
        if self.rows.is_empty() {
            self.rows.reserve_exact(1)?;
        }
        self.rows.push(row)?;
        Ok(())
    }

    /// The number of rows.
    pub fn len(&self) -> usize
        ensures { result ≡ length self.now }
    {
        self.rows.len()
    }

    /// The rows.
    pub fn as_slice(&self) -> &[T]
        ensures { result.now ≡ self.now }
    {
        &self.rows
    }
}

/// What a question comes to.
#[derive(Drop)]
pub enum Finding {
    /// The declarations that fit, of all files.
    Rows { rows: RowList<Row> },
    /// The declarations of one file.
    Outline { rows: RowList<Row> },
    /// The files that have a word.
    Words { rows: RowList<WordRow> },
    /// Where a name stands as an identifier.
    Usages { name: Name, rows: RowList<PlaceRow> },
    /// The types that come from a name.
    Inheritors { rows: RowList<LevelRow> },
    /// Where property files have a key.
    Keys { rows: RowList<PlaceRow> },
    /// How many live files, open documents and unready files there are.
    Counts { files: u32, docs: u32, unready: u32 },
}

/// Why a question isn't answered.
#[derive(Clone, Copy, Debug, PartialEq, Eq)]
pub enum AskRefusal {
    /// No live file has the path.
    NoSuchFile,
    /// Files are unready, and this one has the lowest id of them.
    NotReady { file: u32 },
    /// The watch saw that the work is to end.
    Cancelled,
    /// Memory ran out.
    OutOfMemory,
}

impl From<AllocError> for AskRefusal {
    ghost use Rattle.std.specs.Prelude.{◌≡◌};
    ghost use Rattle.query_engine.specs.declared.answer.AskRefusal.TheVariants.{OutOfMemory};

    ghost from_gives = { λ e refusal. refusal ≡ OutOfMemory };

    fn from(_: AllocError) -> AskRefusal {
        AskRefusal::OutOfMemory
    }
}
