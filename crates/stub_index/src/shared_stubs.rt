//! The declarations of a text, ready to be found under several keys.
ghost use Rattle.std.specs.Prelude.{◌≡◌, IfOk};
ghost use Rattle.stub_tree.specs.Lawful.{IsLawfulList};

use crate::shared_stub::SharedStub;
use std::alloc::{AllocError, Global};
use std::marker::Model;
use stub_tree::StubList;

/// A lawful list of stubs, each of which may have further owners.
#[derive(Drop)]
pub struct SharedStubs {
    stubs: Vec<SharedStub>,
}

impl Model for SharedStubs {
    ghost use Rattle.std.specs.Prelude.{List};
    ghost use Rattle.stub_tree.specs.declared.stub.Stub.{Stub};
    ghost use Rattle.stub_tree.specs.Lawful.{IsLawfulList};

    ghost Value = { List Stub };

    ghost view = { λ l. l.stubs.items };

    ghost invariant = { λ l. IsLawfulList l.stubs.items };
}

impl SharedStubs {
    /// The stubs of a list.
    pub fn of(alloc: Global, list: StubList) -> Result<SharedStubs, AllocError>
        ensures { IfOk result (λ shared. shared ≡ list) }
    {
        let stubs = list.into_vec();
        let mut shared = Vec::with_capacity(alloc, stubs.len())?;
        for stub in stubs {
            shared.push(SharedStub::new(alloc, stub)?)?;
        }
        Ok(SharedStubs { stubs: shared })
    }

    /// The stubs.
    pub fn as_slice(&self) -> &[SharedStub]
        ensures stubs { result.now ≡ self.now }
        ensures lawful { IsLawfulList self.now }
    {
        &self.stubs
    }
}
