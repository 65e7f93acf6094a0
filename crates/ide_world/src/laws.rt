//! Laws that callers rest on: functions that do nothing, whose contracts are the laws.
ghost use Rattle.std.specs.Prelude.{◌≡◌, ◌++◌, ℕ, List, Some};
ghost use Rattle.write_history.specs.declared.entry.Entry.{Entry};
ghost use Rattle.write_history.specs.Fold.{fold, IsLegal};
ghost use Rattle.ide_world.specs.Task.{Task, task_with_id, IsOfWorld};

/// The work of a file, taken after a part of a legal history, is still of the world after all of it. So its data may be
/// made outside every lock, and prepared whenever they are there.
pub fn a_task_stays_of_the_world()
    ensures { (earlier : List Entry) (later : List Entry) (id : ℕ) (task : Task)
        → IsLegal (earlier ++ later) → task_with_id (fold earlier) id ≡ Some task
        → IsOfWorld (fold (earlier ++ later)) task }
{}
