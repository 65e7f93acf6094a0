//! A gate that steers a run: who comes to a spot is held there until another spot was reached.
use action_lock::{Gate, Point};
use std::alloc::{AllocError, Global};
use std::sync::atomic::{AtomicU64, Ordering};
use std::thread;

/// How often a thread looks at most whether it may go on.
const TURNS: u64 = 10_000_000;

/// How long a worker that found nothing to do waits before it looks again.
const PAUSE: u64 = 1_000;

/// A spot of a run.
#[derive(Clone, Copy)]
pub enum Spot {
    /// A lane is about to begin the command on this line.
    Start(u32),
    /// This seat has a read open, and its answer is made.
    Reading(u32),
    /// A worker has made index data, and nothing is taken in yet.
    Made,
    /// The lane or worker with this seat has ended.
    Ended(u32),
}

impl Spot {
    /// Whether a point is at this spot.
    fn has(self, point: Point) -> bool {
        match (self, point) {
            (Spot::Start(own), Point::Start { seat: _, line }) => own == line,
            (Spot::Reading(own), Point::Reading { seat }) => own == seat,
            (Spot::Made, Point::Made { .. }) => true,
            (Spot::Ended(own), Point::Ended { seat }) => own == seat,
            _ => false,
        }
    }
}

/// Who comes to a spot is held there until another spot was reached so often.
#[derive(Clone, Copy)]
pub struct Hold {
    pub at: Spot,
    pub until: Spot,
    pub times: u64,
}

/// A hold, and how often its other spot was reached.
#[derive(Drop)]
struct Watched {
    hold: Hold,
    reached: AtomicU64,
}

impl Watched {
    /// Takes note of a point.
    fn note(&self, point: Point) {
        if self.hold.until.has(point) {
            self.reached.fetch_add(1, Ordering::SeqCst);
        }
    }

    /// Holds who is at the spot. Whether the other spot was reached before the turns ran out.
    fn wait(&self, point: Point) -> bool {
        if !self.hold.at.has(point) {
            return true;
        }
        for _ in 0..TURNS {
            if self.reached.load(Ordering::SeqCst) >= self.hold.times {
                return true;
            }
            thread::yield_now();
        }
        false
    }
}

/// The gate of a steered run.
#[derive(Drop)]
pub struct Stage {
    holds: Vec<Watched>,
    lanes: u64,
    ended: AtomicU64,
    missed: AtomicU64,
}

impl Stage {
    /// The gate of a run with so many lanes, whose seats are the numbers from 1 on.
    pub fn new(alloc: Global, lanes: usize, holds: &[Hold]) -> Result<Stage, AllocError> {
        let mut watched = Vec::with_capacity(alloc, holds.len())?;
        for &hold in holds {
            watched.push(Watched {
                hold,
                reached: AtomicU64::new(0),
            })?;
        }
        Ok(Stage {
            holds: watched,
            lanes: lanes as u64,
            ended: AtomicU64::new(0),
            missed: AtomicU64::new(0),
        })
    }

    /// Whether nobody was held in vain.
    pub fn all_met(&self) -> bool {
        self.missed.load(Ordering::SeqCst) == 0
    }

    /// Takes note of a point, for all holds.
    fn note(&self, point: Point) {
        for watched in &self.holds {
            watched.note(point);
        }
        if let Point::Ended { seat } = point {
            if u64::from(seat) <= self.lanes {
                self.ended.fetch_add(1, Ordering::SeqCst);
            }
        }
    }

    /// Holds who is to be held at a point.
    fn hold(&self, point: Point) {
        for watched in &self.holds {
            if !watched.wait(point) {
                self.missed.fetch_add(1, Ordering::SeqCst);
            }
        }
    }

    /// Whether a lane is still on the way, after a while.
    fn goes_on(&self) -> bool {
        for _ in 0..PAUSE {
            if self.ended.load(Ordering::SeqCst) >= self.lanes {
                return false;
            }
            thread::yield_now();
        }
        true
    }
}

impl Gate for Stage {
    fn at(&self, point: Point) -> bool {
        self.note(point);
        self.hold(point);
        match point {
            Point::Idle { .. } => self.goes_on(),
            _ => true,
        }
    }
}
