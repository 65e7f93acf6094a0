//! What players have done, put together in order of their seats.
ghost use Rattle.std.specs.Prelude.{◌≡◌, [], OnOk};
ghost use Rattle.playing.specs.Players.{HasGathered};

use crate::player::Outcome;
use shared_ide::Worked;
use std::alloc::{AllocError, Global};
use transcripts::Records;

/// Records, and what workers did.
#[derive(Drop)]
pub(crate) struct Outcomes {
    pub(crate) records: Records,
    pub(crate) workers: Vec<Worked>,
}

impl Outcomes {
    /// No record and no worker.
    pub(crate) fn new(alloc: Global) -> Outcomes
        ensures { (result.records ≡ []) × (result.workers.items ≡ []) }
    {
        Outcomes {
            records: Records::new(alloc),
            workers: Vec::new(alloc),
        }
    }

    /// Puts what one player has done behind the rest. An outcome that tells nothing is taken for running out of memory.
    pub(crate) fn take(&mut self, outcome: Outcome) -> Result<(), AllocError>
        ensures { OnOk result (HasGathered outcome self.old self.new) }
    {
        match outcome {
            Outcome::Nothing => Err(AllocError),
            Outcome::Answered { records } => self.records.append(records),
            Outcome::Indexed { worked } => {
                self.workers.push(worked)?;
                Ok(())
            }
        }
    }
}
