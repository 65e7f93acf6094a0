//! A workspace that threads share: every call of the product on one value, each thread with a pass of its own.
#![tactic(auto)]

mod changes;
mod indexing;
mod questions;
mod renewing;
mod shared;
mod threads;
mod tickets;

pub use ide_calls::{
    ChangeRefusal, GroupChangeRefusal, Replied, Reply, SettleRefusal, SoftAskRefusal, Stepped,
    Store,
};
pub use index_workers::{End, IdePass, Worked, laws};
pub use shared::SharedIde;
pub use threads::may_go_to_threads;
pub use tickets::IdeTicket;
