//! The rows of all files under five kinds of keys, in two layers: bases, and overlays that hide them.
#![tactic(auto)]

mod beside;
mod data;
mod found;
mod hidden;
pub mod laws;
mod layers;
mod removed;
mod tables;
mod word_masks;

pub use data::{FileData, data_of};
pub use found::{KeyWalk, StubWalk, WordWalk};
pub use layers::Layers;
pub use removed::Removed;
pub use word_masks::WordMasks;
