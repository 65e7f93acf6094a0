//! The program `ide`: from the words of the command line and a script's bytes to the bytes of the transcript, to whether
//! bytes are one, or to the bytes of a store of index data.
#![tactic(auto)]

mod check;
mod entry;
mod index;
mod over_tree;
mod reading;
mod refusal;
mod run;
mod status;
mod store_file;
mod system;
mod writing;

pub use entry::{finish, run_main, run_process};
pub use over_tree::play;
pub use refusal::PlayRefusal;
pub use run::run_ide;
pub use status::Status;
pub use system::start;
