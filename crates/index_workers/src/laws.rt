//! Laws of passes and workers that callers rest on, beside those of the calls: functions that do nothing, whose contracts
//! are the laws.
ghost use Rattle.action_lock.specs.declared.view.View.{View};
ghost use Rattle.job_queue.specs.declared.view.QueueView.{QueueView};
ghost use Rattle.write_history.specs.declared.entry.Entry.{Entry};
ghost use Rattle.index_workers.specs.declared.pass.IdePass.{IdePass as AnIdePass};
ghost use Rattle.index_workers.specs.declared.worked.Worked.{Worked as AWorked};
ghost use Rattle.index_workers.specs.Passes.{IsSameIdePass};
ghost use Rattle.index_workers.specs.Work.{HasWorked, HasWorkedSo};

use action_lock::Gate;

/// A pass stays the same from one call to the next.
pub fn passes_stay_the_same()
    ensures { (p : AnIdePass) (q : AnIdePass) (r : AnIdePass) → IsSameIdePass p q
        → IsSameIdePass q r → IsSameIdePass p r }
{}

/// What a worker did with a gate is what it may do with whatever gate.
pub fn workers_may_have_any_gate<G: Gate>()
    ensures { (gate : G) (v : View Entry) (w : View Entry) (q : QueueView) (r : QueueView)
        (worked : AWorked)
        → HasWorked (G.may_say gate) v w q r worked → HasWorkedSo v w worked }
{}
