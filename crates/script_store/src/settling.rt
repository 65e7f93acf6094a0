//! A settle: every unready file is taken in, by the lowest id.
ghost use Rattle.std.specs.Prelude.{OnOk};
ghost use Rattle.script_store.specs.Along.{HasSettled};

use replay::{Replay, Settling};
use std::alloc::{AllocError, Global};

/// Takes unready files in, until none is left or the history is full.
pub(crate) fn settle(alloc: Global, replay: &mut Replay) -> Result<(), AllocError>
    ensures { OnOk result (HasSettled replay.old replay.new) }
{
    loop {
        match replay.settle_next(alloc)? {
            Settling::Taken { file: _ } => {}
            Settling::Full { file: _ } => return Ok(()),
            Settling::Over => return Ok(()),
        }
    }
}
