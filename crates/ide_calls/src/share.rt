//! What a reader keeps of the workspace.
ghost use Rattle.std.specs.Prelude.{◌≡◌};

use crate::kept::Kept;
use ide_world::State;
use std::marker::Model;
use std::sync::Arc;

/// A share of the workspace, seen by contracts as the world that its state stands for. The shares of one place of the
/// lock have a block of their own between them, so that readers of different places don't meet in one count.
#[derive(Drop)]
pub struct IdeShare {
    pub(crate) block: Arc<ShareBlock>,
}

/// What the shares of one place have in common. It is so large that the counts of no two blocks share a cache line, and
/// small enough for the lists of free blocks that common allocators keep at hand.
#[derive(Drop)]
pub(crate) struct ShareBlock {
    pub(crate) kept: Arc<Kept>,
    pub(crate) apart: [u64; 12],
}

impl Model for IdeShare {
    ghost use Rattle.write_history.specs.World.{World};

    ghost Value = { World };

    ghost use Rattle.ide_calls.specs.Kept.{world_of};

    ghost view = { world_of };
}

impl IdeShare {
    /// The state, to read.
    pub fn state(&self) -> &State
        ensures { result.now.world ≡ self.now }
    {
        &self.block.kept.state
    }
}
