//! Changes of the shared workspace.
ghost use Rattle.std.specs.Prelude.{◌≡◌, ◌<◌, ◌≤◌, ◌∷◌, [], true, length, IfOk, IfErr, OnErr};
ghost use Rattle.std.specs.List.{list_all};
ghost use Rattle.write_history.specs.Effect.{max_entries};
ghost use Rattle.write_history.specs.Changes.{is_edit};
ghost use Rattle.ide_calls.specs.Change.{HasAccepted, IsChangeRefused, IsGroupRefused};
ghost use Rattle.job_queue.specs.Passes.{queue_view};
ghost use Rattle.index_workers.specs.Passes.{ide_view, IsSameIdePass};
ghost use Rattle.shared_ide.specs.Passes.{IsIdePassOf, Continues};
ghost use Rattle.shared_ide.specs.Hints.{HintsFor, HintsOf};

use crate::shared::SharedIde;
use ide_calls::{ChangeRefusal, GroupChangeRefusal};
use index_workers::{IdePass, hint};
use std::alloc::Global;
use std::sync::Wait;
use write_history::{Change, Changes};

impl SharedIde {
    /// Makes a change other than an intake, and answers with the number of entries of the history, of which its own is the
    /// last. It offers a hint for the file if it left it unready. May block.
    pub fn change<R: Wait>(
        &self,
        rt: &R,
        alloc: Global,
        pass: &mut IdePass,
        line: u32,
        change: Change,
    ) -> Result<u64, ChangeRefusal>
        requires pass { IsIdePassOf self.now pass.old }
        requires edit { is_edit change ≡ true }
        ensures pass { Continues self.now pass.old pass.new }
        ensures mine { OnErr result ((ide_view pass.new).mine ≡ (ide_view pass.old).mine) }
        ensures accepted { IfOk result
            (HasAccepted (ide_view pass.old) (ide_view pass.new) line (change ∷ [])) }
        ensures refused { IfErr result
            (IsChangeRefused (ide_view pass.old) (ide_view pass.new) line change) }
        ensures hints { HintsOf result (ide_view pass.new) (change ∷ []) (queue_view pass.old.queue)
            (queue_view pass.new.queue) }
    {
        let accepted = ide_calls::change(rt, alloc, &self.lock, &mut pass.lock, line, change)?;
        self.offer(rt, pass, accepted.unready);
        Ok(accepted.at)
    }

    /// Makes the changes of a group together, as one entry, or none of them. No change of them is an intake. It offers a
    /// hint for the first of its files that it left unready, if it did. May block.
    pub fn change_group<R: Wait>(
        &self,
        rt: &R,
        alloc: Global,
        pass: &mut IdePass,
        line: u32,
        changes: Changes,
    ) -> Result<u64, GroupChangeRefusal>
        requires pass { IsIdePassOf self.now pass.old }
        requires edits { list_all is_edit changes ≡ true }
        ensures pass { Continues self.now pass.old pass.new }
        ensures mine { OnErr result ((ide_view pass.new).mine ≡ (ide_view pass.old).mine) }
        ensures accepted { IfOk result
            (HasAccepted (ide_view pass.old) (ide_view pass.new) line changes) }
        ensures refused { IfErr result
            (IsGroupRefused (ide_view pass.old) (ide_view pass.new) line changes) }
        ensures hints { HintsOf result (ide_view pass.new) changes (queue_view pass.old.queue)
            (queue_view pass.new.queue) }
    {
        let accepted = ide_calls::change_group(
            rt,
            alloc,
            &self.lock,
            &mut pass.lock,
            line,
            changes,
        )?;
        self.offer(rt, pass, accepted.unready);
        Ok(accepted.at)
    }

    // Offers a hint for a file, if there is one, for the last of the pass's entries.
    fn offer<R: Wait>(&self, rt: &R, pass: &mut IdePass, file: Option<u32>)
        requires pass { IsIdePassOf self.now pass.old }
        requires owed { length (queue_view pass.old.queue).put < length (ide_view pass.old).mine }
        requires few { length (ide_view pass.old).mine ≤ max_entries }
        ensures pass { IsIdePassOf self.now pass.new × IsSameIdePass pass.old pass.new }
        ensures lock { pass.new.lock ≡ pass.old.lock }
        ensures hints { HintsFor file (queue_view pass.old.queue) (queue_view pass.new.queue) }
    {
        if let Some(file) = file {
            hint(rt, &self.queue, pass, file);
        }
    }
}
