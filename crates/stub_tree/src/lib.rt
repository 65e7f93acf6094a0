//! Stubs: what an index keeps of the declarations of a Java text.
#![tactic(auto)]

pub mod laws;
mod names;
mod stub;
mod stub_kind;
mod stub_list;

pub use names::Names;
pub use stub::{MAX_DEPTH, Stub};
pub use stub_kind::StubKind;
pub use stub_list::StubList;
