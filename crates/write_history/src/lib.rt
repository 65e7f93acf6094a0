//! The history of a workspace: its accepted changes in order, what each does to the world, and its printed lines.
#![tactic(auto)]

mod change;
mod changes;
mod entry;
mod history;
mod path;
mod pieces;
mod print;
mod refusal;

pub use change::Change;
pub use changes::{Changes, MAX_CHANGES};
pub use entry::Entry;
pub use history::{History, MAX_ENTRIES};
pub use path::is_lawful_path;
pub use pieces::{push_named, push_numbered};
pub use print::{line_of, push_line};
pub use refusal::Refusal;
