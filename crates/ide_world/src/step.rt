//! One change of one file.
use document_buf::Doc;
use ide_text::SharedText;
use overlay_index::FileData;
use vfs_core::FileRow;

/// An edit of a file's row.
#[derive(Drop)]
pub enum RowEdit {
    /// As it was.
    Keep,
    /// It is this one.
    Put { row: FileRow },
    /// It is gone.
    Remove,
}

/// An edit of a file's document.
#[derive(Drop)]
pub enum DocEdit {
    /// As it was.
    Keep,
    /// It is open, and this one.
    Open { doc: Doc },
    /// This text goes in before the character at this place.
    Insert { at: u32, text: SharedText },
    /// The characters from the first place to before the second go.
    Erase { from: u32, to: u32 },
    /// Its text is committed; this is a copy of it.
    Commit { text: SharedText },
    /// Its text is what is saved.
    MarkSaved,
    /// It stays open and committed as it was, with the text of this one, which is saved.
    Replace { doc: Doc },
    /// It is closed.
    Close,
}

/// An edit of a file's index data.
#[derive(Drop)]
pub enum IndexEdit {
    /// As it was.
    Keep,
    /// Its base is these data.
    SetBase { parts: FileData },
    /// Its overlay is these data.
    SetOverlay { parts: FileData },
    /// What is shown goes to the overlay, and the base is empty.
    ToOverlay,
    /// What is shown goes to the base, and there is no overlay.
    ToBase,
    /// It has none.
    Drop,
}

/// One change of one file: its row, its document, its index data, and whether it draws a stamp.
#[derive(Drop)]
pub struct Step {
    /// The id of the file.
    pub id: u32,
    /// What becomes of its row.
    pub row: RowEdit,
    /// What becomes of its document.
    pub doc: DocEdit,
    /// What becomes of its index data.
    pub index: IndexEdit,
    /// Whether it gets a stamp of its own.
    pub draws: bool,
}
