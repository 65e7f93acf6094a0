//! The rule's laws: functions that do nothing, whose contracts are the laws.
ghost use Rattle.std.specs.Prelude.{List};
ghost use Rattle.job_queue.specs.Accounts.{IsAccounted, IsKnown};
ghost use Rattle.job_queue.specs.Rule.{Stood};
ghost use Rattle.job_queue.specs.Views.{IsLast};
ghost use Rattle.job_queue.specs.declared.hint.Hint.{Hint};
ghost use Rattle.job_queue.specs.declared.view.QueueView.{QueueView};

/// At each moment between two pushes and pops: what a pass and those that it met put carries their numbers and rising turns, the last
/// of it are in the queue, the turns of one pusher rise in what a pass took, and a hint that was taken was taken once and is gone.
pub fn a_hint_is_taken_once()
    ensures { (v : QueueView) (items : List Hint) → Stood v items → IsKnown v items }
{}

/// Where a pass has met all others, each hint that was put was taken or is in the queue, and no other hint was taken or is there.
pub fn no_hint_is_lost()
    ensures { (v : QueueView) (items : List Hint) → Stood v items → IsLast v → IsAccounted v items }
{}
