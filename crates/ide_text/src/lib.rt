//! Texts and names: the characters that every layer above works on.
#![tactic(auto)]

mod chars;
mod inline;
pub mod laws;
mod line_walk;
mod name;
mod shared;
mod spelling;
mod spelt;
mod text;

pub use line_walk::LineWalk;
pub use name::Name;
pub use shared::SharedText;
pub use spelt::Spelt;
pub use text::{MAX_CHARS, Text, TextRefusal};
