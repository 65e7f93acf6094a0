//! A question as a piece of work whose looks are counted, and which lets a write be announced at one of them.
ghost use Rattle.std.specs.Prelude.{◌≡◌, ℕ};
ghost use Rattle.nonblocking_read.specs.Polled.{HasPolled};
ghost use Rattle.query_engine.specs.Looks.{MayLook};

use crate::asked::row_count;
use action_lock::Watch;
use ide_calls::{IdeHome, IdeShare};
use ide_world::State;
use nonblocking_read::{Stopped, Work};
use queries::Query;
use query_engine::{AskRefusal, ask};
use std::alloc::Global;
use std::sync::atomic::{AtomicU64, Ordering};
use std::thread;

/// How often a thread looks for what another is to do.
const TURNS: u64 = 10_000_000;

/// What one that asks and one that writes have in common.
#[derive(Drop)]
pub struct Signs {
    /// How often the question has looked.
    pub looks: AtomicU64,
    /// The look behind which the write is announced; none where it is 0.
    pub announced_at: u64,
    /// 0 at first, 1 from that look on, and 2 once the write is announced.
    pub clock: AtomicU64,
}

impl Signs {
    /// Has the clock beat.
    pub fn beat(&self) {
        self.clock.fetch_add(1, Ordering::SeqCst);
    }

    /// Waits until the clock has beaten so often. Whether that was before the turns ran out.
    pub fn strike(&self, beats: u64) -> bool {
        for _ in 0..TURNS {
            if self.clock.load(Ordering::SeqCst) >= beats {
                return true;
            }
            thread::yield_now();
        }
        false
    }

    /// Counts a look, and lets the write be announced, if it is the one behind which it is to be.
    fn count_look(&self) {
        let earlier = self.looks.fetch_add(1, Ordering::SeqCst);
        if earlier.wrapping_add(1) == self.announced_at {
            self.beat();
            self.strike(2);
        }
    }
}

/// A watch that counts the looks at another.
#[derive(Drop)]
struct Counted<'a, W> {
    inner: &'a mut W,
    signs: &'a Signs,
}

impl<'a, W: Watch> Watch for Counted<'a, W> {
    ghost use Rattle.std.proofs.Common.{refl, ◌∙◌};

    ghost looks = { λ c. W.looks c.inner.now };

    ghost sightings = { λ c. W.sightings c.inner.now };

    ghost can_look = { λ c. W.can_look c.inner.now };

    ghost stays = { λ a b. (b.inner.ghost_name ≡ a.inner.ghost_name) × W.stays a.inner.now b.inner.now };

    ghost stays_itself = { λ a. (refl, W.stays_itself a.inner.now) };

    ghost stays_on = { λ a b c p q. (q.0 ∙ p.0, W.stays_on a.inner.now b.inner.now c.inner.now p.1 q.1) };

    fn look(&mut self) -> bool {
        let seen = self.inner.look();
        self.signs.count_look();
        seen
    }
}

/// A question, of whose answer the rows are counted.
#[derive(Drop)]
pub struct Rows<'a> {
    pub query: &'a Query,
    pub signs: &'a Signs,
}

impl<'a> Work<IdeHome> for Rows<'a> {
    ghost use Rattle.write_history.specs.Fold.{fold};
    ghost use Rattle.query_engine.specs.Looks.{MayLook};

    type Out = Option<usize>;

    ghost fits = { λ work out entries. Unit {0} };

    ghost owes = { λ work entries n. MayLook (fold entries) work.query.now n };

    fn run<W: Watch>(
        &mut self,
        alloc: Global,
        share: &IdeShare,
        watch: &mut W,
    ) -> Result<Option<usize>, Stopped> {
        rows_by(alloc, share.state(), self.query, self.signs, watch)
    }
}

/// How many rows the answer has, or nothing where there is none, unless the watch sees that the work is to end.
fn rows_by<W: Watch>(
    alloc: Global,
    state: &State,
    query: &Query,
    signs: &Signs,
    watch: &mut W,
) -> Result<Option<usize>, Stopped>
    requires { W.can_look watch.old }
    ensures again { W.can_look watch.new }
    ensures stays { W.stays watch.old watch.new }
    ensures polled { (n : ℕ) × MayLook state.now.world query.now n
        × HasPolled W.looks W.sightings W.stays result n watch.old watch.new }
{
    let mut counted = Counted {
        inner: watch,
        signs,
    };
    match ask(alloc, state, query, &mut counted) {
        Ok(answer) => Ok(row_count(&answer)),
        Err(AskRefusal::NoSuchFile) => Ok(None),
        Err(AskRefusal::NotReady { file: _ }) => Ok(None),
        Err(AskRefusal::Cancelled) => Err(Stopped::Seen),
        Err(AskRefusal::OutOfMemory) => Err(Stopped::OutOfMemory),
    }
}
