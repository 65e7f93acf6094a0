//! The script of the `demo` command: classes that extend one another, and two lanes that rewrite them, all drawn from a seed.
#![tactic(auto)]

mod command;
mod commands;
mod draws;
pub mod laws;
mod script;

pub use script::demo_script;
