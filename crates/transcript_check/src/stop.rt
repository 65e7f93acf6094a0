//! Where going through the texts of entries and records stops, by how many are left there.

/// A section stops at a line: so many texts of entries are left, and so many of records from that of this line on.
#[derive(Clone, Copy, Debug, PartialEq, Eq)]
pub(crate) struct LineStop {
    pub(crate) seat: u32,
    pub(crate) line: u32,
    pub(crate) entries: usize,
    pub(crate) records: usize,
}

/// Lanes and workers stop.
#[derive(Clone, Copy, Debug, PartialEq, Eq)]
pub(crate) enum SideStop {
    /// Behind the last entry a lane waits with this line; the records are its own.
    Line { stop: LineStop },
    /// The next entry, which names this seat, doesn't go in; it is the first of so many.
    Entry { seat: u32, left: usize },
}
