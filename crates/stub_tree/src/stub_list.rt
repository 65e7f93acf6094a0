//! A lawful list of stubs.
ghost use Rattle.std.specs.Prelude.{◌≡◌, ◌==◌, ◌<◌, ◌≤◌, ◌++◌, ◌∷◌, [], Some, IfOk, OnOk, OnErr, length, slice_get};
ghost use Rattle.ide_text.specs.Text.{max_chars};
ghost use Rattle.stub_tree.specs.Lawful.{IsLawfulList};

use crate::stub::Stub;
use std::alloc::{AllocError, Global};
use std::marker::Model;

/// The declarations of a text, in its order, a type before its members.
#[derive(Drop)]
pub struct StubList {
    stubs: Vec<Stub>,
}

impl Model for StubList {
    ghost use Rattle.std.specs.Prelude.{List};
    ghost use Rattle.stub_tree.specs.declared.stub.Stub.{Stub};
    ghost use Rattle.stub_tree.specs.Lawful.{IsLawfulList};

    ghost Value = { List Stub };

    ghost view = { λ l. l.stubs.items };

    ghost invariant = { λ l. IsLawfulList l.stubs.items };
}

impl StubList {
    /// No stub.
    pub fn new(alloc: Global) -> StubList
        ensures { result ≡ [] }
    {
        StubList {
            stubs: Vec::new(alloc),
        }
    }

    /// The stubs of a vector.
    pub fn from_vec(stubs: Vec<Stub>) -> StubList
        requires { IsLawfulList stubs.items }
        ensures { result ≡ stubs.items }
    {
        StubList { stubs }
    }

    /// Puts a stub at the end. On an error the list is as before.
    pub fn push(&mut self, stub: Stub) -> Result<(), AllocError>
        requires { IsLawfulList (self.old ++ stub ∷ []) }
        ensures ok { OnOk result (self.new ≡ self.old ++ stub ∷ []) }
        ensures err { OnErr result (self.new ≡ self.old) }
    {
        self.stubs.push(stub)?;
        Ok(())
    }

    /// The number of stubs.
    pub fn len(&self) -> u32
        ensures len { result ≡ length self.now }
        ensures few { result ≤ max_chars }
    {
        self.stubs.len() as u32
    }

    /// Whether there is no stub.
    pub fn is_empty(&self) -> bool
        ensures { result ≡ (length self.now == 0) }
    {
        self.stubs.is_empty()
    }

    /// The stub at a place, from 0.
    pub fn at(&self, i: u32) -> &Stub
        requires { i < length self.now }
        ensures { slice_get self.now i ≡ Some result.now }
    {
        &self.stubs[i as usize]
    }

    /// The stubs.
    pub fn as_slice(&self) -> &[Stub]
        ensures stubs { result.now ≡ self.now }
        ensures lawful { IsLawfulList self.now }
    {
        &self.stubs
    }

    /// The stubs as a vector.
    pub fn into_vec(self) -> Vec<Stub>
        ensures stubs { result.items ≡ self }
        ensures lawful { IsLawfulList result.items }
    {
        let StubList { stubs } = self;
        stubs
    }

    /// The same stubs once more.
    pub fn copy(&self) -> Result<StubList, AllocError>
        ensures { IfOk result (λ copy. copy ≡ self.now) }
    {
        let mut stubs = Vec::new(*self.stubs.allocator());
        for stub in &self.stubs {
            stubs.push(stub.copy()?)?;
        }
        Ok(StubList { stubs })
    }
}
