//! Files by their ids and paths, with their contents and stamps.
#![tactic(auto)]

mod files;
mod paths;
mod row;
mod rows;

pub use files::Files;
pub use row::FileRow;
