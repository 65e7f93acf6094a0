//! A workspace that one thread goes through alone: what a history of changes, intakes and settles leads to, step by step.
#![tactic(auto)]

mod entering;
mod intake;
mod refusal;
mod replay;
mod settling;

pub use refusal::{EnterRefusal, IntakeRefusal};
pub use replay::Replay;
pub use settling::Settling;
