//! Edits of a workspace, and questions asked of it.
ghost use Rattle.std.specs.Prelude.{◌≡◌, ◌∷◌, [], true, IfOk};
ghost use Rattle.list_laws.specs.Prefixes.{IsPrefix};
ghost use Rattle.write_history.specs.Fold.{fold};
ghost use Rattle.write_history.specs.Changes.{is_edit};

use action_lock::Home;
use ide_calls::{IdeHome, IdeShare};
use ide_text::{Name, SharedText, Text};
use ide_world::{State, prepare};
use queries::Query;
use query_engine::{Finding, ask_unwatched};
use std::alloc::{AllocError, Global};
use write_history::{Change, Changes, Entry};

/// One change to the file `A.java`, but for the last two.
#[derive(Clone, Copy)]
pub enum Edit {
    Create(&'static str),
    Write(&'static str),
    Delete,
    Open,
    Insert(u32, &'static str),
    Commit,
    /// A move from a path to another.
    Move(&'static str, &'static str),
    /// The document of a file at a path is closed.
    Close(&'static str),
}

/// Makes these edits, one after another, and tells how many were accepted.
pub fn changed(alloc: Global, home: &mut IdeHome, edits: &[Edit]) -> Result<u32, AllocError>
    ensures { IsPrefix home.old home.new }
{
    let mut accepted = 0u32;
    for edit in edits {
        if put(alloc, home, change_of(alloc, *edit)?)? {
            accepted = accepted.saturating_add(1);
        }
    }
    Ok(accepted)
}

/// Makes one change, and tells whether it was accepted.
pub fn put(alloc: Global, home: &mut IdeHome, change: Change) -> Result<bool, AllocError>
    requires { is_edit change ≡ true }
    ensures { IsPrefix home.old home.new }
{
    let share = share_of(alloc, home)?;
    match prepare(alloc, share.state(), &change) {
        Ok(ready) => {
            home.accept(ready, entry_of(change))?;
            Ok(true)
        }
        Err(_) => Ok(false),
    }
}

/// A share of the workspace as it is now.
pub fn share_of(alloc: Global, home: &IdeHome) -> Result<IdeShare, AllocError>
    ensures { IfOk result (λ share. share ≡ fold home.now) }
{
    home.len();
    home.share(alloc)
}

/// The entry of one change.
pub fn entry_of(change: Change) -> Entry
    ensures { result.changes ≡ change ∷ [] }
{
    Entry {
        seat: 0,
        line: 0,
        changes: Changes::one(change),
    }
}

/// The change that an edit is.
fn change_of(alloc: Global, edit: Edit) -> Result<Change, AllocError>
    ensures { IfOk result (λ change. is_edit change ≡ true) }
{
    let path = Name::of(alloc, "A.java")?;
    Ok(match edit {
        Edit::Create(text) => Change::Create {
            path,
            text: text_of(alloc, text)?,
        },
        Edit::Write(text) => Change::Write {
            path,
            text: text_of(alloc, text)?,
        },
        Edit::Delete => Change::Delete { path },
        Edit::Open => Change::OpenDoc { path },
        Edit::Insert(at, text) => Change::Insert {
            path,
            at,
            text: text_of(alloc, text)?,
        },
        Edit::Commit => Change::Commit { path },
        Edit::Move(from, to) => Change::Move {
            path: Name::of(alloc, from)?,
            to: Name::of(alloc, to)?,
        },
        Edit::Close(at) => Change::CloseDoc {
            path: Name::of(alloc, at)?,
        },
    })
}

/// The text that a string spells.
pub fn text_of(alloc: Global, text: &str) -> Result<SharedText, AllocError> {
    match Text::from_utf8(alloc, text.as_bytes()) {
        Ok(text) => SharedText::new(alloc, text),
        Err(_) => Err(AllocError),
    }
}

/// How many types have a name, or nothing where the question is refused.
pub fn rows(alloc: Global, state: &State, name: &str) -> Result<Option<usize>, AllocError> {
    let query = Query::Class {
        name: Name::of(alloc, name)?,
    };
    match ask_unwatched(alloc, state, &query) {
        Ok(Finding::Rows { rows }) => Ok(Some(rows.len())),
        Ok(_) => Ok(None),
        Err(_) => Ok(None),
    }
}
