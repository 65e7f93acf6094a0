//! The words of the command line: what they ask for.
#![tactic(auto)]

mod grammar;
mod number;
mod request;

pub use request::{Request, WordsRefusal, request_of};
