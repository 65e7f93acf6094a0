//! A stub with several owners: the rows of all indexes that find it have one copy of it.
ghost use Rattle.std.specs.Prelude.{◌≡◌, ◌++◌, ◌∷◌, [], IfOk, OnOk};

use file_index::Rank;
use ide_text::Name;
use std::alloc::{AllocError, Global};
use std::marker::Model;
use std::sync::Arc;
use stub_tree::Stub;

/// A stub with several owners, seen by contracts as the stub. It is never changed.
#[derive(Drop)]
pub struct SharedStub {
    stub: Arc<Stub>,
}

impl Model for SharedStub {
    ghost use Rattle.stub_tree.specs.declared.stub.Stub.{Stub};

    ghost Value = { Stub };

    ghost view = { λ s. s.stub.value };
}

impl SharedStub {
    /// A stub with its first owner.
    pub fn new(alloc: Global, stub: Stub) -> Result<SharedStub, AllocError>
        ensures { IfOk result (λ shared. shared ≡ stub) }
    {
        Ok(SharedStub {
            stub: Arc::new(alloc, stub)?,
        })
    }

    /// One more owner of the same stub. Constant time.
    pub fn share(&self) -> Result<SharedStub, AllocError>
        ensures { IfOk result (λ shared. shared ≡ self.now) }
    {
        Ok(SharedStub {
            stub: self.stub.clone()?,
        })
    }

    /// The stub.
    pub fn as_stub(&self) -> &Stub
        ensures { result.now ≡ self.now }
    {
        &self.stub
    }
}

impl Rank for SharedStub {
    ghost rank_of = { λ stub. stub.at };

    /// The offset of its name.
    fn rank(&self) -> u32 {
        self.stub.at
    }
}

/// Adds a row: a stub, with one more owner, under a name.
pub(crate) fn add_row(
    rows: &mut Vec<(Name, SharedStub)>,
    name: &Name,
    stub: &SharedStub,
) -> Result<(), AllocError>
    ensures { OnOk result (rows.new.items ≡ rows.old.items ++ (name.now, stub.now) ∷ []) }
{
    rows.push((name.copy()?, stub.share()?))?;
    Ok(())
}
