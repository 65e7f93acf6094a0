//! The declarations that a Java text lists: its types, methods, constructors, fields and constants of enums.
#![tactic(auto)]

mod annotation;
mod bracket;
mod characters;
mod constants;
mod declaration;
mod field;
mod forest;
mod header;
mod item;
pub mod laws;
mod listing;
mod method;
mod node;
mod open_brackets;
mod role;
mod supers;
mod type_head;
mod unit;
mod word;

pub use listing::stubs;
