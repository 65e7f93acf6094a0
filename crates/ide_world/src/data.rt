//! The work of indexing a file, before and after it is done.
ghost use Rattle.std.specs.Prelude.{◌≡◌};
ghost use Rattle.overlay_index.specs.Parts.{parts_of};

use dumb_mode::FileKind;
use ide_text::SharedText;
use overlay_index::FileData;

/// An unready file as it was when its index data are to be made.
#[derive(Drop)]
pub struct Job {
    /// The id of the file.
    pub file: u32,
    /// The kind of the file's path: what its data are made by.
    pub kind: FileKind,
    /// The stamp that the file had.
    pub stamp: u64,
    /// The text that it had.
    pub text: SharedText,
}

/// The index data of a file, made by its kind from its text at a stamp.
#[derive(Drop)]
pub struct Made {
    /// The id of the file.
    pub file: u32,
    /// What the data are made by.
    pub kind: FileKind,
    /// The stamp that the file had.
    pub stamp: u64,
    /// The text that it had.
    pub text: SharedText,
    /// The data.
    pub parts: FileData,
    ghost of_text: { parts ≡ parts_of kind text },
}
