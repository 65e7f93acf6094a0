//! The one failure of the outside world.

/// A call on a source, a tree or a sink met a fault, and its object has counted it.
#[derive(Clone, Copy, Debug, PartialEq, Eq)]
pub struct Failed;
