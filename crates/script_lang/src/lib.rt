//! The grammar of scripts: from a script's bytes to its commands, section by section, or to its first bad line.
#![tactic(auto)]

mod command;
mod command_line;
mod content;
mod field;
mod group;
pub mod laws;
mod line;
mod query_line;
mod quoted;
mod reader;
mod refusal;
mod script;
mod sections;
mod split;

pub use command::{Command, MAX_ATTEMPTS};
pub use line::{Line, Section};
pub use queries::Query;
pub use reader::MAX_LANES;
pub use refusal::ScriptRefusal;
pub use script::{MAX_BYTES, Script, is_within_limit, parse};
