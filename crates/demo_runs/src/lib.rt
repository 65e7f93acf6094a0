//! What every run of a demo leads to: its bytes spell one script, that script is lawful, and each run has the summary of
//! the run on one thread.
#![tactic(auto)]

pub mod agree;
pub mod laws;
