//! The workspace as the value under a lock, and the calls on it: changes go in, alone or as a group, questions are answered,
//! and unready files are indexed, by one step of a worker or by a settle.
#![tactic(auto)]

mod accepted;
mod ahead;
mod answering;
mod asking;
mod change_refusal;
mod changing;
mod choice;
mod entries;
mod first_read;
mod group_refusal;
mod home;
mod intake;
mod judge;
mod kept;
mod lowest;
mod making;
mod planning;
mod probe;
mod question;
mod renewing;
mod replied;
mod reply;
mod settle_refusal;
mod settling;
mod share;
mod sighted;
mod soft_asking;
mod soft_refusal;
mod step;
mod stepping;
mod stored;
mod writing;

pub use accepted::Accepted;
pub use asking::ask;
pub use change_refusal::ChangeRefusal;
pub use changing::{change, change_group};
pub use group_refusal::GroupChangeRefusal;
pub use home::IdeHome;
pub use index_store::Store;
pub use renewing::renew;
pub use replied::Replied;
pub use reply::Reply;
pub use settle_refusal::SettleRefusal;
pub use settling::settle;
pub use share::IdeShare;
pub use sighted::Sighted;
pub use soft_asking::soft_ask;
pub use soft_refusal::SoftAskRefusal;
pub use step::Stepped;
pub use stepping::index_step;
pub use stored::make_stored;
pub use writing::write_entry;
