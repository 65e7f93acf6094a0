//! Checks a transcript without running its script again beside threads: the history and the records, one after another.
#![tactic(auto)]

mod alone;
mod answering;
mod block;
pub mod blocks;
mod cursor;
mod entering;
mod intakes;
mod judging;
mod lanes;
pub mod laws;
mod misfit;
mod numbers;
mod placing;
mod result;
mod round;
mod sides;
mod stop;
mod told;
mod workers;

pub use block::Block;
pub use judging::{first_misfit, verdict};
pub use misfit::Misfit;
pub use result::{Verdict, VerdictRefusal};
