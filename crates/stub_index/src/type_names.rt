//! The index of types by their names.
ghost use Rattle.std.specs.Prelude.{◌≡◌, ◌++◌, IfOk};
ghost use Rattle.stub_index.specs.Named.{type_names, rows_named};

use crate::shared_stub::{SharedStub, add_row};
use crate::shared_stubs::SharedStubs;
use file_index::{Indexer, KeyRows};
use ide_text::Name;
use std::alloc::{AllocError, Global};

/// Finds the types of a list of stubs, each under its name.
#[derive(Clone, Copy, Drop)]
pub struct TypeNames;

impl Indexer for TypeNames {
    type Input = SharedStubs;

    type Key = Name;

    type Value = SharedStub;

    ghost use Rattle.stub_index.specs.Named.{type_names, rows_by_name};

    ghost rows_of = { λ stubs. rows_by_name type_names stubs };

    ghost rows_version = { 1 };

    fn version(&self) -> u8 {
        1
    }

    fn rows(
        &self,
        alloc: Global,
        stubs: &SharedStubs,
    ) -> Result<KeyRows<Name, SharedStub>, AllocError> {
        KeyRows::from_rows(named_types(alloc, stubs.as_slice())?)
    }

    fn copy_key(&self, _alloc: Global, key: &Name) -> Result<Name, AllocError> {
        key.copy()
    }

    fn copy_value(&self, _alloc: Global, stub: &SharedStub) -> Result<SharedStub, AllocError> {
        stub.share()
    }
}

/// The types, each under its name.
fn named_types(alloc: Global, stubs: &[SharedStub]) -> Result<Vec<(Name, SharedStub)>, AllocError>
    ensures { IfOk result (λ rows. rows.items ≡ rows_named type_names stubs.now) }
{
    let mut rows = Vec::new(alloc);
    for shared in stubs {
        let stub = shared.as_stub();
        if stub.is_type() {
            add_row(&mut rows, &stub.name, shared)?;
        }
    }
    Ok(rows)
}
