//! Questions about a workspace, as a script or a program asks them.
#![tactic(auto)]

mod query;

pub use query::Query;
