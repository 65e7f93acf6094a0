//! An accepted entry, as the history keeps it.
use crate::Changes;

/// Changes that went in together, with the number of the pass that made them and the line of the script that asked for them.
#[derive(Drop)]
pub struct Entry {
    /// 0 for the prelude and the last section.
    pub seat: u32,
    /// From 1; 0 where no line of the script asked for it.
    pub line: u32,
    /// The changes, in order.
    pub changes: Changes,
}
