//! The names of files as paths of a workspace, and those paths as names again.
#![tactic(auto)]

mod encoding;
pub mod laws;
mod printing;
#[cfg(test)]
mod tests;

pub use encoding::path_of;
pub use printing::push_shown;
