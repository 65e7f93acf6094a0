//! Inverted indexes: the rows that an input gives, and which files have rows under a key.
#![tactic(auto)]

mod files;
mod ids;
mod indexer;
mod inverted;
mod key_rows;
pub mod laws;
mod postings;
mod row_walk;

pub use indexer::{Indexer, Rank};
pub use inverted::Inverted;
pub use key_rows::{KeyRows, copy_rows};
pub use row_walk::RowWalk;
