//! The data of one entry: the rows that the indexes take, and the bytes that stand in a store.
ghost use Rattle.std.specs.Prelude.{◌≡◌, IfOk, bytes_eq};
ghost use Rattle.index_store.specs.Held.{AreDataOf};

use crate::spelled::spelled_data;
use dumb_mode::FileKind;
use ide_text::Text;
use overlay_index::{FileData, data_of};
use std::alloc::{AllocError, Global};
use std::marker::Model;

/// The data of an entry's text.
#[derive(Drop)]
pub(crate) struct Stored {
    pub(crate) rows: FileData,
    pub(crate) spelled: Vec<u8>,
}

impl Model for Stored {
    ghost use Rattle.index_store.specs.Held.{Stored as Seen};

    ghost Value = { Seen };

    ghost view = { λ s. (s.rows, s.spelled.items) };
}

impl Stored {
    /// The data of a text, by the kind of a file with it. Linear in the text, but for the sorting of its rows.
    pub(crate) fn of(alloc: Global, kind: FileKind, text: &Text) -> Result<Stored, AllocError>
        ensures { IfOk result
            (λ stored. AreDataOf (record { text = text.now; kind = kind }) stored) }
    {
        let spelled = spelled_data(alloc, kind, text)?;
        let rows = data_of(alloc, kind, text)?;
        Ok(Stored { rows, spelled })
    }

    /// Whether these are its bytes.
    pub(crate) fn is_spelled(&self, bytes: &[u8]) -> bool
        ensures { result ≡ bytes_eq self.now.1 bytes.now }
    {
        self.spelled.as_slice() == bytes
    }

    /// The rows once more.
    pub(crate) fn copy_rows(&self, alloc: Global) -> Result<FileData, AllocError>
        ensures { IfOk result (λ rows. rows ≡ self.now.0) }
    {
        self.rows.copy(alloc)
    }
}
