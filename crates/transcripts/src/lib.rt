//! What is read for a script's loads, what a script is answered, and how the transcript prints it: the history, then a
//! record for each command.
#![tactic(auto)]

mod found;
pub mod laws;
mod loaded;
mod loads;
mod print;
mod record;
mod refusal;
mod rows;

pub use loaded::Loaded;
pub use loads::read_loads;
pub use print::{record_text, summary, transcript};
pub use record::{Answer, Played, Record, Records};
pub use refusal::LoadRefusal;
