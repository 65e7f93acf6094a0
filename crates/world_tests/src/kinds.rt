//! What a file shows that is moved between paths of Java files, of files of properties and of others.
use crate::calls::{Edit, rows, share_of};
use crate::late::late_intake;
use ide_calls::IdeHome;
use ide_text::Name;
use ide_world::State;
use std::alloc::{AllocError, Global};

/// Makes these edits, has the first file taken in, if it is unready, and tells how many types are then named `A`, in how
/// many files the word `A` is, and how often the key `class`.
pub fn tell(alloc: Global, home: &mut IdeHome, edits: &[Edit]) -> Result<String, AllocError> {
    late_intake(alloc, home, edits, 1, &[])?;
    let share = share_of(alloc, home)?;
    let types = rows(alloc, share.state(), "A")?;
    let words = word_count(alloc, share.state(), "A")?;
    let keys = key_count(alloc, share.state(), "class")?;
    format!(in alloc; "{types:?}, {words}, {keys}")
}

/// How many files have a word.
fn word_count(alloc: Global, state: &State, word: &str) -> Result<u32, AllocError> {
    let name = Name::of(alloc, word)?;
    let mut count: u32 = 0;
    for _ in state.word_rows(&name) {
        count = count.saturating_add(1);
    }
    Ok(count)
}

/// How often a key stands in the files.
fn key_count(alloc: Global, state: &State, key: &str) -> Result<u32, AllocError> {
    let name = Name::of(alloc, key)?;
    let mut count: u32 = 0;
    for _ in state.key_rows(&name) {
        count = count.saturating_add(1);
    }
    Ok(count)
}
