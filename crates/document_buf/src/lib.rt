//! The documents of open files: a text that is edited, the text as last committed, and whether the file has it.
#![tactic(auto)]

mod doc;
mod docs;
mod gap;

pub use doc::Doc;
pub use docs::Docs;
