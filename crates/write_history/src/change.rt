//! A change to the workspace.
ghost use Rattle.std.specs.Prelude.{◌≡◌, IfOk};

use ide_text::{Name, SharedText};
use std::alloc::AllocError;

/// What a change does to the workspace. Offsets and lengths count characters from 0.
#[derive(Drop)]
pub enum Change {
    /// A new file.
    Create {
        path: Name,
        text: SharedText,
    },
    /// New content for a live file.
    Write {
        path: Name,
        text: SharedText,
    },
    /// The file goes, and its document where it is open.
    Delete {
        path: Name,
    },
    /// The file gets a document.
    OpenDoc {
        path: Name,
    },
    /// A piece goes into the document before an offset.
    Insert {
        path: Name,
        at: u32,
        text: SharedText,
    },
    /// The characters of the document from one offset up to another go.
    Erase {
        path: Name,
        from: u32,
        to: u32,
    },
    /// The document's text becomes the one that searches see.
    Commit {
        path: Name,
    },
    /// The document's text becomes the file's content.
    Save {
        path: Name,
    },
    /// The document goes.
    CloseDoc {
        path: Name,
    },
    /// The index data of a file, made from its content at a stamp, go in.
    Intake {
        file: u32,
        stamp: u64,
    },
    /// The file gets another path.
    Move {
        path: Name,
        to: Name,
    },
}

impl Change {
    /// The same change once more, which shares its text.
    pub fn copy(&self) -> Result<Change, AllocError>
        ensures { IfOk result (λ copy. copy ≡ self.now) }
    {
        Ok(match self {
            Change::Create { path, text } => {
                let (path, text) = copied(path, text)?;
                Change::Create { path, text }
            }
            Change::Write { path, text } => {
                let (path, text) = copied(path, text)?;
                Change::Write { path, text }
            }
            Change::Delete { path } => Change::Delete { path: path.copy()? },
            Change::OpenDoc { path } => Change::OpenDoc { path: path.copy()? },
            Change::Insert { path, at, text } => {
                let (path, text) = copied(path, text)?;
                Change::Insert {
                    path,
                    at: *at,
                    text,
                }
            }
            Change::Erase { path, from, to } => Change::Erase {
                path: path.copy()?,
                from: *from,
                to: *to,
            },
            Change::Commit { path } => Change::Commit { path: path.copy()? },
            Change::Save { path } => Change::Save { path: path.copy()? },
            Change::CloseDoc { path } => Change::CloseDoc { path: path.copy()? },
            Change::Intake { file, stamp } => Change::Intake {
                file: *file,
                stamp: *stamp,
            },
            Change::Move { path, to } => Change::Move {
                path: path.copy()?,
                to: to.copy()?,
            },
        })
    }
}

/// A path once more, and a text that is shared.
fn copied(path: &Name, text: &SharedText) -> Result<(Name, SharedText), AllocError>
    ensures { IfOk result (λ copied. copied ≡ (path.now, text.now)) }
{
    let path = path.copy()?;
    Ok((path, text.share()?))
}
