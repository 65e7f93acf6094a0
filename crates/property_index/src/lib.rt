//! The property keys of a text, in the format of Java's `.properties` files, and their index.
#![tactic(auto)]

mod characters;
mod key_index;
mod key_scan;
pub mod laws;
mod line_scan;
mod listing;

pub use key_index::PropertyKeys;
pub use listing::property_keys;
