//! A whole script, played over one shared workspace: section by section with a record for each command, its lanes and
//! workers each on a thread of its own.
#![tactic(auto)]

mod answering;
mod asking;
mod changing;
mod lane_gate;
mod line;
mod outcomes;
mod player;
mod round;
mod run;
mod section;
mod settling;

pub use lane_gate::LaneGate;
pub use run::play;
pub use section::do_section;
