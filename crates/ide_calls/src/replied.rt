//! A reply, and the moment that it is of.
use crate::reply::Reply;

/// A reply to a question, at a prefix of the history.
#[derive(Drop)]
pub struct Replied {
    /// The length of the prefix.
    pub at: u64,
    /// The reply.
    pub reply: Reply,
}
