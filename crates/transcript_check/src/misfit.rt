//! Where and why bytes are no transcript.

/// The first block that doesn't fit, as the verdict goes through them. Blocks are counted from 0: the history's line is block
/// 0, the entry at each position has that number, and the records come behind them.
#[derive(Clone, Copy, Debug, PartialEq, Eq)]
pub enum Misfit {
    /// There is no block: the bytes are empty.
    NoBlock,
    /// The first block isn't the line that tells so many entries, which go by the number of blocks.
    History {
        entries: usize,
    },
    /// The line with this number, of the section with this seat (0 for the prelude and the last one), doesn't go behind what
    /// goes before it: its record isn't what is expected, or not what it adds. The next entry is the block `entry`, and the
    /// line's record the block `record`.
    Line {
        seat: u32,
        line: u32,
        entry: usize,
        record: usize,
    },
    /// The entry at this position, which names this seat of a lane or worker, doesn't go in behind those before it.
    Entry {
        seat: u32,
        position: usize,
    },
    /// All lines went, and this block is left, the first of those that are.
    Left {
        block: usize,
    },
}
