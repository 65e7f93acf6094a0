//! Three indexes over the declarations of a text: its types by their names and by their supers, and its methods.
#![tactic(auto)]

mod last_mentions;
pub mod laws;
mod method_names;
mod shared_stub;
mod shared_stubs;
mod super_names;
mod type_names;

pub use method_names::MethodNames;
pub use shared_stub::SharedStub;
pub use shared_stubs::SharedStubs;
pub use super_names::SuperNames;
pub use type_names::TypeNames;
