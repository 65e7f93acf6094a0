//! The index of methods by their names.
ghost use Rattle.std.specs.Prelude.{◌≡◌, ◌++◌, IfOk};
ghost use Rattle.stub_index.specs.Named.{method_names, rows_named};

use crate::shared_stub::{SharedStub, add_row};
use crate::shared_stubs::SharedStubs;
use file_index::{Indexer, KeyRows};
use ide_text::Name;
use std::alloc::{AllocError, Global};
use stub_tree::StubKind;

/// Finds the methods of a list of stubs, each under its name; a constructor is none.
#[derive(Clone, Copy, Drop)]
pub struct MethodNames;

impl Indexer for MethodNames {
    type Input = SharedStubs;

    type Key = Name;

    type Value = SharedStub;

    ghost use Rattle.stub_index.specs.Named.{method_names, rows_by_name};

    ghost rows_of = { λ stubs. rows_by_name method_names stubs };

    ghost rows_version = { 1 };

    fn version(&self) -> u8 {
        1
    }

    fn rows(
        &self,
        alloc: Global,
        stubs: &SharedStubs,
    ) -> Result<KeyRows<Name, SharedStub>, AllocError> {
        KeyRows::from_rows(named_methods(alloc, stubs.as_slice())?)
    }

    fn copy_key(&self, _alloc: Global, key: &Name) -> Result<Name, AllocError> {
        key.copy()
    }

    fn copy_value(&self, _alloc: Global, stub: &SharedStub) -> Result<SharedStub, AllocError> {
        stub.share()
    }
}

/// The methods, each under its name.
fn named_methods(alloc: Global, stubs: &[SharedStub]) -> Result<Vec<(Name, SharedStub)>, AllocError>
    ensures { IfOk result (λ rows. rows.items ≡ rows_named method_names stubs.now) }
{
    let mut rows = Vec::new(alloc);
    for shared in stubs {
        let stub = shared.as_stub();
        if stub.kind == StubKind::Method.code() {
            add_row(&mut rows, &stub.name, shared)?;
        }
    }
    Ok(rows)
}
