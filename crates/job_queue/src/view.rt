//! What the queue's rule knows of one pass. No value of these types is made.
use crate::hint::Hint;
use std::collections::LinkedList;

/// What the pass with a number put and took.
pub struct Hand {
    /// The pass's number.
    pub number: u32,
    /// The hints that it put, in order.
    pub put: LinkedList<Hint>,
    /// The hints that it took, in order.
    pub took: LinkedList<Hint>,
}

/// What the queue's rule knows of one pass: the hints that it put and took. No value of it is made.
pub struct QueueView {
    /// Its number, once it has been given one.
    pub number: Option<u32>,
    /// Of number 0: how many numbers were given, its own included.
    pub drawn: u64,
    /// The hints that it put, in order.
    pub put: LinkedList<Hint>,
    /// The hints that it took, in order.
    pub took: LinkedList<Hint>,
    /// What the passes that it met put and took, each by its number.
    pub ended: LinkedList<Hand>,
}
