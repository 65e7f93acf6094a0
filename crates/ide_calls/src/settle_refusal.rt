//! Why a settle ends before every file is ready.

/// Why a settle ends while a file is still unready.
#[derive(Clone, Copy, Debug, PartialEq, Eq)]
pub enum SettleRefusal {
    /// The history is full, with this many entries, and a file is still unready.
    HistoryFull { at: u64 },
    /// The intakes made so far stay.
    OutOfMemory,
}
