//! A workspace that one thread goes through.
ghost use Rattle.std.specs.Prelude.{◌≡◌, ◌≢◌, ◌≤◌, Ok, Err, IfOk, IfErr, OnOk, OnErr, List, None, true, length, option_map};
ghost use Rattle.std.specs.List.{list_all};
ghost use Rattle.std.specs.Option.{option_copied};
ghost use Rattle.write_history.specs.declared.change.Change.{Change};
ghost use Rattle.write_history.specs.World.{empty_world, file_of, lowest_unready};
ghost use Rattle.write_history.specs.Effect.{max_entries, max_files};
ghost use Rattle.write_history.specs.Fold.{list_refusal, after_list};
ghost use Rattle.write_history.specs.Changes.{is_edit};
ghost use Rattle.ide_world.specs.Ready.{told, IsReadyFor, Makes, IsFirstAccepted};
ghost use Rattle.query_engine.specs.Reply.{reply, IsRefusalOf};
ghost use Rattle.replay.specs.Steps.{IsEnterRefused, IsIntakeRefused, Settles, IsLeftUnready, intake_of};

use crate::entering::edits_ready;
use crate::intake::intake_ready;
use crate::refusal::{EnterRefusal, IntakeRefusal};
use crate::settling::Settling;
use history_laws::laws::unready_files_have_an_order;
use ide_text::Name;
use ide_world::{GroupRefusal, Ready, State, install, path, reserve};
use queries::Query;
use query_engine::{AskRefusal, Finding, ask_unwatched};
use std::alloc::{AllocError, Global};
use std::marker::Model;
use write_history::Changes;

/// A workspace that one thread goes through, seen by contracts as the world that its steps led to. It keeps no history.
#[derive(Drop)]
pub struct Replay {
    state: State,
}

impl Model for Replay {
    ghost use Rattle.write_history.specs.World.{World};

    ghost Value = { World };

    ghost view = { λ r. r.state.world };
}

impl Replay {
    /// No file, and no entry. It takes no memory.
    pub fn empty(alloc: Global) -> Replay
        ensures { result ≡ empty_world }
    {
        Replay {
            state: State::empty(alloc),
        }
    }

    /// Makes the changes of an entry together, or none of them. No change of them is an intake. It costs what the changes
    /// do, whatever the workspace holds.
    pub fn enter(&mut self, alloc: Global, changes: &Changes) -> Result<(), EnterRefusal>
        requires edits { list_all is_edit changes.now ≡ true }
        ensures accepted { OnOk result (list_refusal self.old changes.now ≡ None) }
        ensures world { OnOk result (self.new ≡ after_list self.old changes.now) }
        ensures refused { IfErr result (IsEnterRefused self.old changes.now) }
        ensures same { OnErr result (self.new ≡ self.old) }
    {
        let ready = edits_ready(alloc, &self.state, changes)?;
        match self.put_in(ready) {
            Ok(()) => Ok(()),
            Err(_) => Err(EnterRefusal::OutOfMemory),
        }
    }

    /// Why changes would be refused now, if they would be; nothing is made. No change of them is an intake. It costs what
    /// `enter` does.
    pub fn refusal(
        &self,
        alloc: Global,
        changes: &Changes,
    ) -> Result<Option<GroupRefusal>, AllocError>
        requires edits { list_all is_edit changes.now ≡ true }
        ensures value { IfOk result
            (λ refusal. option_map told refusal ≡ list_refusal self.now changes.now) }
        ensures err { OnErr result (IsFirstAccepted self.now changes.now) }
    {
        match edits_ready(alloc, &self.state, changes) {
            Ok(_) => Ok(None),
            Err(EnterRefusal::Refused { place, why }) => Ok(Some(GroupRefusal { place, why })),
            Err(EnterRefusal::OutOfMemory) => Err(AllocError),
        }
    }

    /// Takes a live file in at its present stamp, whether it is indexed already, open or no Java file: its index data are
    /// made from its present content. It costs that text, whatever else the workspace holds.
    pub fn take_in(&mut self, alloc: Global, file: u32) -> Result<(), IntakeRefusal>
        ensures accepted { OnOk result (list_refusal self.old (intake_of self.old file) ≡ None) }
        ensures world { OnOk result (self.new ≡ after_list self.old (intake_of self.old file)) }
        ensures refused { IfErr result (IsIntakeRefused self.old file) }
        ensures same { OnErr result (self.new ≡ self.old) }
    {
        let ready = intake_ready(alloc, &self.state, file)?;
        match self.put_in(ready) {
            Ok(()) => Ok(()),
            Err(_) => Err(IntakeRefusal::OutOfMemory),
        }
    }

    /// One step of a settle: takes the unready file with the lowest id in, where there is one and the history has room. It
    /// costs that file's text.
    pub fn settle_next(&mut self, alloc: Global) -> Result<Settling, AllocError>
        ensures step { IfOk result (Settles self.old self.new) }
        ensures left { OnErr result (IsLeftUnready self.old) }
        ensures same { OnErr result (self.new ≡ self.old) }
    {
        unready_files_have_an_order();
        let Some(file) = self.state.lowest_unready() else {
            return Ok(Settling::Over);
        };
        match self.take_in(alloc, file) {
            Ok(()) => Ok(Settling::Taken { file }),
            Err(IntakeRefusal::HistoryFull) => Ok(Settling::Full { file }),
            Err(IntakeRefusal::NoSuchFile) => unreachable!(),
            Err(IntakeRefusal::OutOfMemory) => Err(AllocError),
        }
    }

    /// Answers a question by the world. `OutOfMemory` may come in place of the answer. It costs what the query engine does.
    pub fn ask(&self, alloc: Global, query: &Query) -> Result<Finding, AskRefusal>
        ensures answer { IfOk result (λ answer. reply self.now query.now ≡ Ok answer) }
        ensures refused { IfErr result (IsRefusalOf (reply self.now query.now)) }
        ensures not_stopped { result ≢ Err AskRefusal.Cancelled }
    {
        ask_unwatched(alloc, &self.state, query)
    }

    /// The state in which the world is kept, to be read.
    pub fn state(&self) -> &State
        ensures { result.now.world ≡ self.now }
    {
        &self.state
    }

    /// How many entries were accepted, 1,048,576 at most. Constant time.
    pub fn entries(&self) -> u64
        ensures value { result ≡ self.now.entries }
        ensures few { result ≤ max_entries }
    {
        // Its contract says that the world is sound, so within its limits.
        let _made = self.state.made();
        self.state.entries()
    }

    /// How many files were made, deleted ones among them; 65,536 at most. Constant time.
    pub fn made(&self) -> usize
        ensures value { result ≡ length self.now.files }
        ensures few { result ≤ max_files }
    {
        self.state.made()
    }

    /// The unready file with the lowest id. Logarithmic in the number of unready files.
    pub fn lowest_unready(&self) -> Option<u32>
        ensures { result ≡ lowest_unready self.now }
    {
        self.state.lowest_unready()
    }

    /// The stamp of a live file. Constant time.
    pub fn stamp_of(&self, file: u32) -> Option<u64>
        ensures { result ≡ option_map (λ f. f.stamp) (file_of self.now file) }
    {
        Some(self.state.row(file)?.stamp)
    }

    /// The path of a live file. Constant time.
    pub fn path_at(&self, file: u32) -> Option<&Name>
        ensures { option_copied result ≡ option_map (λ f. f.path) (file_of self.now file) }
    {
        path(&self.state, file)
    }

    /// Lets changes that are ready in, as one entry, or leaves the world as it was where there is no memory.
    fn put_in(&mut self, ready: Ready) -> Result<(), AllocError>
        requires { IsReadyFor self.old ready }
        ensures ok { OnOk result
            ((changes : List Change) → Makes self.old ready changes
            → self.new ≡ after_list self.old changes) }
        ensures err { OnErr result (self.new ≡ self.old) }
    {
        reserve(&mut self.state, &ready)?;
        install(&mut self.state, ready);
        Ok(())
    }
}
