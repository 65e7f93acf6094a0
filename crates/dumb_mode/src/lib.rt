//! Which files are to be indexed, and whether all of them are.
#![tactic(auto)]

mod kind;
pub mod laws;
mod mark;
mod marks;

pub use kind::{FileKind, is_java, is_same_kind, kind_of, passes_filter};
pub use mark::Mark;
pub use marks::{is_smart, lowest_unindexed, unready_count};
