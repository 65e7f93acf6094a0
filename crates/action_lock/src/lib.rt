//! A lock with three kinds of hold: read, intent and write. Reads run side by side, and a read can see that a write waits.
#![tactic(auto)]

mod gate;
mod home;
pub mod laws;
mod lock;
mod pass;
mod places;
mod plays;
mod reading;
mod refusal;
mod rule;
mod slot;
mod steps;
mod ticket;
mod view;
mod waiting;
mod watch;
mod words;
mod write_steps;
mod writing;

pub use gate::{Gate, Point};
pub use home::Home;
pub use lock::ActionLock;
pub use pass::Pass;
pub use reading::Reading;
pub use refusal::{IntentRefusal, ReadRefusal, SplitRefusal};
pub use rule::GateRule;
pub use slot::Slot;
pub use ticket::Ticket;
pub use view::{Ended, Phase, View};
pub use watch::Watch;
