//! The index of types by their supers.
ghost use Rattle.std.specs.Prelude.{◌≡◌, ◌++◌, IfOk, OnOk};
ghost use Rattle.stub_index.specs.Named.{super_names, distinct_names, rows_named, rows_under};

use crate::last_mentions::{is_last, last_mentions};
use crate::shared_stub::{SharedStub, add_row};
use crate::shared_stubs::SharedStubs;
use file_index::{Indexer, KeyRows};
use ide_text::Name;
use std::alloc::{AllocError, Global};

/// Finds the types of a list of stubs, each under its supers; under one that it names twice it is found once.
#[derive(Clone, Copy, Drop)]
pub struct SuperNames;

impl Indexer for SuperNames {
    type Input = SharedStubs;

    type Key = Name;

    type Value = SharedStub;

    ghost use Rattle.stub_index.specs.Named.{super_names, rows_by_name};

    ghost rows_of = { λ stubs. rows_by_name super_names stubs };

    ghost rows_version = { 1 };

    fn version(&self) -> u8 {
        1
    }

    fn rows(
        &self,
        alloc: Global,
        stubs: &SharedStubs,
    ) -> Result<KeyRows<Name, SharedStub>, AllocError> {
        KeyRows::from_rows(named_by_supers(alloc, stubs.as_slice())?)
    }

    fn copy_key(&self, _alloc: Global, key: &Name) -> Result<Name, AllocError> {
        key.copy()
    }

    fn copy_value(&self, _alloc: Global, stub: &SharedStub) -> Result<SharedStub, AllocError> {
        stub.share()
    }
}

/// The types, each under its supers.
fn named_by_supers(
    alloc: Global,
    stubs: &[SharedStub],
) -> Result<Vec<(Name, SharedStub)>, AllocError>
    ensures { IfOk result (λ rows. rows.items ≡ rows_named super_names stubs.now) }
{
    let mut rows = Vec::new(alloc);
    for shared in stubs {
        let stub = shared.as_stub();
        if stub.is_type() {
            add_under(&mut rows, stub.supers.as_slice(), shared)?;
        }
    }
    Ok(rows)
}

/// Adds a stub under each of these names, once under each. The time goes by their number and its logarithm.
fn add_under(
    rows: &mut Vec<(Name, SharedStub)>,
    names: &[Name],
    stub: &SharedStub,
) -> Result<(), AllocError>
    ensures { OnOk result
        (rows.new.items ≡ rows.old.items ++ rows_under (distinct_names names.now) stub.now) }
{
    let mentions = last_mentions(*rows.allocator(), names)?;
    let mut left = names;
    while let Some((name, rest)) = left.split_first() {
        if is_last(&mentions, name, rest.len()) {
            add_row(rows, name, stub)?;
        }
        left = rest;
    }
    Ok(())
}
