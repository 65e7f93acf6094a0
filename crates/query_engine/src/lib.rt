//! Answers to questions about a workspace, each of them the one that its files' texts give, made anew.
#![tactic(auto)]

mod answer;
mod asked_names;
mod inheritors;
mod key_rows;
pub mod laws;
mod level_rows;
mod listed_file;
mod looks;
mod outline;
mod question;
mod reached;
mod ready;
mod search;
mod stub_rows;
mod usages;
mod word_rows;

pub use answer::{AskRefusal, Finding, LevelRow, PlaceRow, Row, RowList, WordRow};
pub use looks::NoWatch;
pub use question::{ask, ask_unwatched};
