//! How passes are made, split and met, for the lock and the queue at once.
ghost use Rattle.std.specs.Prelude.{◌≡◌, ◌≢◌, ◌<◌, ◌↔◌, Some, List, IfOk, IfErr, IsTrue};
ghost use Rattle.list_laws.specs.Prefixes.{IsPrefix};
ghost use Rattle.action_lock.specs.Passes.{IsPassOf, IsLast};
ghost use Rattle.action_lock.specs.Passes.{view_of};
ghost use Rattle.action_lock.specs.Steps.{KnowsItsLists, joined, splitting, split_off, told};
ghost use Rattle.action_lock.specs.Views.{first_view};
ghost use Rattle.action_lock.specs.declared.refusal.SplitRefusal.TheVariants.{Full};
ghost use Rattle.write_history.specs.declared.entry.Entry.{Entry};
ghost use Rattle.write_history.specs.Fold.{IsLegal};
ghost use Rattle.job_queue.specs.declared.hint.Hint.{Hint};
ghost use Rattle.job_queue.specs.Accounts.{IsAccounted};
ghost use Rattle.job_queue.specs.Passes.{queue_view, IsQueuePassOf};
ghost use Rattle.job_queue.specs.Views.{first_view as first_queue_view};
ghost use Rattle.index_workers.specs.Passes.{ide_view, IsIdePassOf, IsSameIdePass};

use crate::pass::IdePass;
use action_lock::{ActionLock, Pass, SplitRefusal};
use ide_calls::IdeHome;
use job_queue::{JobQueue, QueuePass};

/// The first pass of a lock and the first pass of a queue, as one.
pub fn first(lock: Pass<IdeHome>, queue: QueuePass) -> IdePass
    ensures { (result.lock ≡ lock) × (result.queue ≡ queue) }
{
    IdePass { lock, queue }
}

/// A pass with the next number, which has seen as much. Number 0 alone gives numbers.
pub fn split(
    lock: &ActionLock<IdeHome>,
    queue: &JobQueue,
    pass: &mut IdePass,
) -> Result<IdePass, SplitRefusal>
    requires pass { IsIdePassOf lock.now queue.now pass.old }
    requires leads { (ide_view pass.old).number ≡ Some 0 }
    ensures pass { IsIdePassOf lock.now queue.now pass.new × IsSameIdePass pass.old pass.new }
    ensures ok { IfOk result
        (λ new. IsIdePassOf lock.now queue.now new × ((ide_view pass.old).drawn < 65536)
        × (ide_view pass.new ≡ splitting (ide_view pass.old))
        × (ide_view new ≡ split_off (ide_view pass.old))) }
    ensures full { IfErr result
        (λ refusal. (refusal ≡ Full 65536) × ((ide_view pass.old).drawn ≡ 65536)
        × (ide_view pass.new ≡ ide_view pass.old)) }
{
    let of_lock = lock.split(&mut pass.lock)?;
    let of_queue = queue.split(&mut pass.queue);
    Ok(IdePass {
        lock: of_lock,
        queue: of_queue,
    })
}

/// The second pass takes in what the first knows, and keeps its entries and its hints apart by its number.
pub fn meet(lock: &ActionLock<IdeHome>, queue: &JobQueue, other: IdePass, pass: &mut IdePass)
    requires pass { IsIdePassOf lock.now queue.now pass.old }
    requires other { IsIdePassOf lock.now queue.now other }
    requires follows { (ide_view other).number ≢ Some 0 }
    ensures pass { IsIdePassOf lock.now queue.now pass.new × IsSameIdePass pass.old pass.new }
    ensures view { ide_view pass.new ≡ told (joined (ide_view pass.old) (ide_view other)) }
    ensures keeps { IsPrefix (ide_view pass.old).seen (ide_view pass.new).seen }
    ensures learns { IsPrefix (ide_view other).seen (ide_view pass.new).seen }
    ensures knows { KnowsItsLists (λ (e : Entry). e.seat) (ide_view pass.new) }
{
    let IdePass {
        lock: of_lock,
        queue: of_queue,
    } = other;
    lock.meet(of_lock, &mut pass.lock);
    queue.meet(of_queue, &mut pass.queue);
}

/// Whether the pass is number 0, and every other number that was given was met into it.
pub fn is_last(lock: &ActionLock<IdeHome>, queue: &JobQueue, pass: &mut IdePass) -> bool
    requires { IsIdePassOf lock.now queue.now pass.old }
    ensures pass { IsIdePassOf lock.now queue.now pass.new × IsSameIdePass pass.old pass.new }
    ensures view { ide_view pass.new ≡ ide_view pass.old }
    ensures last { IsTrue result ↔ IsLast (ide_view pass.new) }
    ensures knows { KnowsItsLists (λ (e : Entry). e.seat) (ide_view pass.new) }
{
    let _ = queue;
    lock.is_last(&mut pass.lock)
}

/// Gives the home value back, which stands for all that the pass has seen. Each hint that was put was taken once or is left.
pub fn close(lock: ActionLock<IdeHome>, queue: JobQueue, pass: IdePass) -> IdeHome
    requires pass { IsIdePassOf lock queue pass }
    requires last { IsLast (ide_view pass) }
    ensures stands { result ≡ (ide_view pass).seen }
    ensures legal { IsLegal (ide_view pass).seen }
    ensures knows { KnowsItsLists (λ (e : Entry). e.seat) (ide_view pass) }
    ensures hints { (left : List Hint) × IsAccounted (queue_view pass.queue) left }
{
    let IdePass {
        lock: of_lock,
        queue: of_queue,
    } = pass;
    queue.close(of_queue);
    lock.close(of_lock)
}
