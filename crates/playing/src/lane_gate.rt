//! The gate of a run: workers go on until every lane has ended.
ghost use Rattle.std.specs.Prelude.{◌≡◌, ◌<◌, true, length};

use action_lock::{Gate, Point};
use script_lang::Script;
use std::sync::Wait;
use std::sync::atomic::{AtomicU64, Ordering};
use std::time::Duration;

/// The longest that a worker with nothing to do sleeps before it looks again, in milliseconds.
const NAP: u64 = 1;

/// Counts the lanes that have ended. A worker that finds nothing to do sleeps until a lane ends, or for a short while, and
/// then goes on; once all lanes have ended it is told to end.
#[derive(Drop)]
pub struct LaneGate<'r, R> {
    rt: &'r R,
    lanes: u32,
    ended: AtomicU64,
}

impl<'r, R: Wait> LaneGate<'r, R> {
    /// The gate of a run of a script, whose lanes have the numbers from 1 on as their seats.
    pub fn new(rt: &'r R, script: &Script) -> LaneGate<'r, R>
        ensures { result.lanes ≡ length script.now.lanes }
    {
        LaneGate {
            rt,
            lanes: script.lanes() as u32,
            ended: AtomicU64::new(0),
        }
    }

    /// Takes note of a seat that has ended: that of a lane counts.
    fn end(&self, seat: u32) {
        if seat <= self.lanes {
            self.ended.fetch_add(1, Ordering::SeqCst);
            self.ended.wake_all();
        }
    }

    /// Whether a lane is still on the way. If so, it has slept for a while.
    fn wait(&self) -> bool
        ensures { result ≡ true → 0 < self.now.lanes }
    {
        let ended = self.ended.load(Ordering::SeqCst);
        if self.lanes as u64 <= ended {
            return false;
        }
        let nap = Duration::from_millis(NAP);
        self.ended.park_timeout(self.rt, ended as u32, nap);
        true
    }
}

impl<R: Wait> Gate for LaneGate<'_, R> {
    ghost use Rattle.playing.specs.Gates.{MaySay};

    ghost may_say = { λ gate point answer. MaySay gate.lanes point answer };

    fn at(&self, point: Point) -> bool {
        match point {
            Point::Ended { seat } => {
                self.end(seat);
                true
            }
            Point::Idle { seat: _ } => self.wait(),
            _ => true,
        }
    }
}
