//! Why a change is refused.

/// The first reason, in the order of the change's rules, why a change is refused.
#[derive(Clone, Copy, Debug, PartialEq, Eq)]
pub enum Refusal {
    /// No live file has the path or the id.
    NoSuchFile,
    /// A live file has the path.
    PathTaken,
    /// The path is unlawful.
    BadPath,
    /// The file has no document.
    NotOpen,
    /// The file has a document.
    AlreadyOpen,
    /// An offset is past the end of the document, which has this length, or the range ends before it begins.
    BadRange { length: u32 },
    /// The file doesn't have the document's text.
    Unsaved,
    /// The document's text isn't committed.
    Uncommitted,
    /// The file has a document whose text it doesn't have.
    Conflict,
    /// 65,536 files were made.
    FilesFull,
    /// 1,024 documents are open.
    DocsFull,
    /// The document would have this many characters, more than a text may have.
    TextFull { count: u32 },
    /// The data were made at the stamp `made`, and the file is at `present`.
    Stale { made: u64, present: u64 },
    /// The history has 1,048,576 entries.
    HistoryFull,
    /// Memory ran out. No rule gives it, and it changes nothing.
    OutOfMemory,
}
