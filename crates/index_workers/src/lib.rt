//! Workers that index a shared workspace: a pass of the lock and of the queue of hints, one step of indexing, and a worker's run.
#![tactic(auto)]

mod cursor;
mod ending;
mod hinting;
pub mod laws;
mod pass;
mod passes;
mod stepping;
mod worked;
mod working;

pub use cursor::SharedCursor;
pub use hinting::hint;
pub use ide_calls::{Sighted, Store, make_stored};
pub use pass::IdePass;
pub use passes::{close, first, is_last, meet, split};
pub use stepping::index_step;
pub use worked::{End, Worked};
pub use working::worker;
