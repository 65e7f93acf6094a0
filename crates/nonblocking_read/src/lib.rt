//! Soft reads: a piece of work on a share that ends early where a write waits, and is then tried again.
#![tactic(auto)]

mod attempt;
mod soft_read;
mod work;

pub use soft_read::{SoftRefusal, soft};
pub use work::{Stopped, Work};
