//! The state, as a value of which a copy can be made.
ghost use Rattle.std.specs.Prelude.{◌≡◌};

use ide_world::State;
use std::alloc::AllocError;

#[derive(Drop)]
pub(crate) struct Kept {
    pub(crate) state: State,
}

impl Clone for Kept {
    ghost is_clone = { λ old new. new.state.world ≡ old.state.world };

    fn clone(&self) -> Result<Kept, AllocError> {
        Ok(Kept {
            state: self.state.copy()?,
        })
    }
}
