//! What the lock's rule knows of one seat. No value of these types is made.
use std::collections::LinkedList;

/// What the seat does.
pub enum Phase {
    /// It neither reads nor writes, and has no turn.
    Out,
    /// It has the turn of its place and the share that the place keeps, to read.
    Entering,
    /// It has the turn of its place, which keeps no share, and the empty slot.
    Lacking,
    /// It has the turn of its place, and gives it back.
    Backing,
    /// It reads by a share.
    Reading,
    /// It has set the pending mark of so many places, from the first on.
    Marking(u32),
    /// It has marked all places, and has shut so many of them, from the first on. With all of them shut, it writes.
    Shutting(u32),
    /// It has written, and so many places are still shut.
    Opening(u32),
}

/// What a pass that was met has left.
pub struct Ended<E> {
    /// The number that it had.
    pub number: u32,
    /// The entries that it made.
    pub entries: LinkedList<E>,
    /// How often it found the pending mark.
    pub sights: u64,
}

/// What the lock's rule knows of one pass: its number, its phase, and what it has seen and made. No value of it is made.
pub struct View<E> {
    /// How many places the lock has.
    pub places: u32,
    /// Its number, once it has been given one.
    pub number: Option<u32>,
    /// Of number 0: how many numbers were given, its own included.
    pub drawn: u64,
    /// What it does.
    pub phase: Phase,
    /// Whether it has the intent to write.
    pub intent: bool,
    /// What it has seen is the whole history until it releases its intent.
    pub current: bool,
    /// The history as far as it has seen it.
    pub seen: LinkedList<E>,
    /// The entries that it made.
    pub mine: LinkedList<E>,
    /// What a join has left to be told.
    pub olds: LinkedList<LinkedList<E>>,
    /// What the passes that it met have left.
    pub ended: LinkedList<Ended<E>>,
    /// How often it found the pending mark.
    pub sights: u64,
    /// How long what it has seen was at each step that let it in.
    pub reads: LinkedList<u64>,
    /// How often it looked at its place's word or tried to enter.
    pub looks: u64,
    /// How often it looked at its place's word in its last read, or in the one that goes on.
    pub checks: u64,
    /// How often it did in the reads before that.
    pub earlier_checks: u64,
    /// How often it found the intent taken.
    pub held: u64,
    /// How often it came to write.
    pub writes: u64,
    /// The word of its place that it found last.
    pub last: u64,
}
