//! The commands of a script.
use ide_text::Name;
use queries::Query;
use write_history::{Change, Changes};

/// The most attempts of a soft read.
pub const MAX_ATTEMPTS: u32 = 1000;

/// What a script asks for at one place. No change of it is an intake.
#[derive(Drop)]
pub enum Command {
    /// A change to the workspace.
    Change(Change),
    /// Changes that go in together, or not at all.
    Group(Changes),
    /// The file at a path of the tree is read, and made.
    Load { path: Name },
    /// Index every unready file.
    Settle,
    /// The answer to a question.
    Ask(Query),
    /// The answer to a question, by a read that gives way to writes, with at most so many attempts, 1 to 1000.
    Soft { attempts: u32, query: Query },
}
