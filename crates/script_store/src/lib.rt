//! The store of the last world that a script leads to on one thread: its indexed texts, with the data that the indexes take
//! from them.
#![tactic(auto)]

mod along;
mod entering;
mod keeping;
pub mod laws;
mod loading;
mod run;
mod settling;

pub use run::store_of;
