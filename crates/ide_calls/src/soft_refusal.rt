//! Why a soft question isn't answered.
use crate::sighted::Sighted;

/// Why a soft question has no answer.
#[derive(Drop)]
pub enum SoftAskRefusal {
    /// As many attempts as were allowed saw that a write waits.
    Cancelled(Sighted),
    /// Memory ran out.
    OutOfMemory,
}
