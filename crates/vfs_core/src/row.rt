//! What is kept of one file.
ghost use Rattle.std.specs.Prelude.{◌≡◌, IfOk};

use ide_text::{Name, SharedText};
use std::alloc::AllocError;

/// A live file.
#[derive(Drop)]
pub struct FileRow {
    /// Its path.
    pub path: Name,
    /// Its content.
    pub content: SharedText,
    /// The stamp that was drawn when it was made, written or renamed last.
    pub stamp: u64,
    /// The stamp at which it was indexed last.
    pub indexed: Option<u64>,
}

impl FileRow {
    /// The same file once more. The content is shared.
    pub fn copy(&self) -> Result<FileRow, AllocError>
        ensures { IfOk result (λ copy. copy ≡ self.now) }
    {
        Ok(FileRow {
            path: self.path.copy()?,
            content: self.content.share()?,
            stamp: self.stamp,
            indexed: self.indexed,
        })
    }
}
