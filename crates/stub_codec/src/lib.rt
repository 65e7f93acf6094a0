//! The bytes of a list of stubs, both ways.
#![tactic(auto)]

pub mod laws;
mod reading;
mod refusal;
mod writing;

pub use reading::decode;
pub use refusal::StubRefusal;
pub use writing::encode;
