//! The shared workspace, and how its passes are made and met.
ghost use Rattle.std.specs.Prelude.{◌≡◌, ◌≢◌, ◌<◌, ◌≤◌, ◌↔◌, List, Some, IfOk, IfErr, IsTrue, length};
ghost use Rattle.list_laws.specs.Prefixes.{IsPrefix};
ghost use Rattle.action_lock.specs.Passes.{IsLast};
ghost use Rattle.action_lock.specs.Steps.{KnowsItsLists, joined, splitting, split_off, told};
ghost use Rattle.action_lock.specs.Views.{first_view};
ghost use Rattle.action_lock.specs.Words.{places_for};
ghost use Rattle.action_lock.specs.declared.refusal.SplitRefusal.TheVariants.{Full};
ghost use Rattle.write_history.specs.declared.entry.Entry.{Entry};
ghost use Rattle.write_history.specs.Fold.{IsLegal};
ghost use Rattle.job_queue.specs.declared.hint.Hint.{Hint};
ghost use Rattle.job_queue.specs.Accounts.{IsAccounted};
ghost use Rattle.job_queue.specs.Passes.{queue_view};
ghost use Rattle.job_queue.specs.Views.{first_view as first_queue_view};
ghost use Rattle.index_workers.specs.Passes.{ide_view, IsSameIdePass};
ghost use Rattle.shared_ide.specs.Passes.{IsIdePassOf};

use action_lock::{ActionLock, SplitRefusal};
use ide_calls::{IdeHome, Store};
use index_workers::{IdePass, SharedCursor, close, first, is_last, meet, split};
use job_queue::JobQueue;
use std::alloc::{AllocError, Global};

/// A workspace that threads share: under a lock, with a queue of hints for workers, and a store of index data that were made
/// before. It is ended by `close` alone.
pub struct SharedIde {
    pub(crate) lock: ActionLock<IdeHome>,
    pub(crate) queue: JobQueue,
    pub(crate) cursor: SharedCursor,
    pub(crate) store: Store,
}

impl SharedIde {
    /// The workspace without a file, and its first pass. Index data that the store has aren't made anew; `Store::empty` has none.
    /// Ask for as many places as there will be passes that call it at the same time, from 1 up to 32: with fewer some reads take
    /// turns, and each place more makes a change dearer.
    pub fn new(alloc: Global, store: Store, places: u32) -> Result<(SharedIde, IdePass), AllocError>
        ensures pass { IfOk result (λ made. IsIdePassOf made.0 made.1) }
        ensures view { IfOk result (λ made. ide_view made.1 ≡ first_view (places_for places)) }
        ensures hints { IfOk result (λ made. queue_view made.1.queue ≡ first_queue_view) }
    {
        let home = IdeHome::new(alloc)?;
        let (queue, of_queue) = JobQueue::new(alloc)?;
        match ActionLock::new(alloc, home, places) {
            Ok((lock, of_lock)) => {
                let cursor = SharedCursor::new();
                let ide = SharedIde {
                    lock,
                    queue,
                    cursor,
                    store,
                };
                Ok((ide, first(of_lock, of_queue)))
            }
            Err(_) => {
                queue.close(of_queue);
                Err(AllocError)
            }
        }
    }

    /// A pass with the next number, which has seen as much. Number 0 alone gives numbers, 65,536 with its own.
    pub fn split(&self, pass: &mut IdePass) -> Result<IdePass, SplitRefusal>
        requires pass { IsIdePassOf self.now pass.old }
        requires leads { (ide_view pass.old).number ≡ Some 0 }
        ensures pass { IsIdePassOf self.now pass.new × IsSameIdePass pass.old pass.new }
        ensures ok { IfOk result
            (λ new. IsIdePassOf self.now new × ((ide_view pass.old).drawn < 65536)
            × (ide_view pass.new ≡ splitting (ide_view pass.old))
            × (ide_view new ≡ split_off (ide_view pass.old))) }
        ensures full { IfErr result
            (λ refusal. (refusal ≡ Full 65536) × ((ide_view pass.old).drawn ≡ 65536)
            × (ide_view pass.new ≡ ide_view pass.old)) }
    {
        split(&self.lock, &self.queue, pass)
    }

    /// The second pass takes in what the first knows, and keeps its entries and its hints apart by its number.
    pub fn meet(&self, other: IdePass, pass: &mut IdePass)
        requires pass { IsIdePassOf self.now pass.old }
        requires other { IsIdePassOf self.now other }
        requires follows { (ide_view other).number ≢ Some 0 }
        ensures pass { IsIdePassOf self.now pass.new × IsSameIdePass pass.old pass.new }
        ensures view { ide_view pass.new ≡ told (joined (ide_view pass.old) (ide_view other)) }
        ensures keeps { IsPrefix (ide_view pass.old).seen (ide_view pass.new).seen }
        ensures learns { IsPrefix (ide_view other).seen (ide_view pass.new).seen }
        ensures knows { KnowsItsLists (λ (e : Entry). e.seat) (ide_view pass.new) }
    {
        meet(&self.lock, &self.queue, other, pass);
    }

    /// Whether the pass is number 0, and every other number that was given was met into it.
    pub fn is_last(&self, pass: &mut IdePass) -> bool
        requires { IsIdePassOf self.now pass.old }
        ensures pass { IsIdePassOf self.now pass.new × IsSameIdePass pass.old pass.new }
        ensures view { ide_view pass.new ≡ ide_view pass.old }
        ensures last { IsTrue result ↔ IsLast (ide_view pass.new) }
        ensures knows { KnowsItsLists (λ (e : Entry). e.seat) (ide_view pass.new) }
    {
        is_last(&self.lock, &self.queue, pass)
    }

    /// Gives the workspace back, which stands for all that the pass has seen: the whole history. Each hint that was put
    /// was taken once or is left.
    pub fn close(self, pass: IdePass) -> IdeHome
        requires pass { IsIdePassOf self pass }
        requires last { IsLast (ide_view pass) }
        ensures stands { result ≡ (ide_view pass).seen }
        ensures legal { IsLegal (ide_view pass).seen }
        ensures knows { KnowsItsLists (λ (e : Entry). e.seat) (ide_view pass) }
        ensures hints { (left : List Hint) × IsAccounted (queue_view pass.queue) left }
    {
        let SharedIde {
            lock,
            queue,
            cursor: _,
            store: _,
        } = self;
        close(lock, queue, pass)
    }
}
