//! Words as a caller has them.
use std::alloc::{AllocError, Global};

/// The words as strings, behind the program's name.
pub fn command_words(alloc: Global, words: &[&str]) -> Result<Vec<String>, AllocError> {
    let mut all = Vec::new(alloc);
    all.push(String::from_str(alloc, "ide")?)?;
    for word in words {
        all.push(String::from_str(alloc, *word)?)?;
    }
    Ok(all)
}
