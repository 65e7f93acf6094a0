//! Bytes to a store: first all fields, then the data of each entry.
ghost use Rattle.std.specs.Prelude.{◌≡◌, ◌<◌, ◌^◌, None, List, length, IfOk, IfErr};
ghost use Rattle.index_store.specs.declared.refusal.StoreRefusal.TheVariants.{OutOfMemory};
ghost use Rattle.index_store.specs.Answers.{IsRefusalOf, IsWrongIn};
ghost use Rattle.index_store.specs.Data.{StoreEntry as AnEntry};
ghost use Rattle.byte_fields.specs.Reading.{AllAfter};
ghost use Rattle.index_store.specs.Lawful.{IsRow, IsStoreBytes};
ghost use Rattle.index_store.specs.Spelling.{rows_of};

use crate::laws::reading_is_exact;
use crate::refusal::StoreRefusal;
use crate::row_reading::{RowRef, all};
use crate::store::Store;
use crate::versions::other_version;
use byte_fields::Fault;
use std::alloc::Global;

/// The store that the bytes spell.
pub(crate) fn read_store(alloc: Global, bytes: &[u8]) -> Result<Store, StoreRefusal>
    ensures read { IfOk result (λ store. IsStoreBytes (rows_of store) bytes.now) }
    ensures only { (entries : List AnEntry) → IsStoreBytes (rows_of entries) bytes.now
        → IfOk result (λ store. store ≡ entries) × IfErr result (λ refusal. refusal ≡ OutOfMemory) }
    ensures refused { IfErr result (IsRefusalOf bytes.now) }
{
    reading_is_exact();
    checked_store(alloc, bytes)
}

/// The same, with the clauses from which the third follows.
fn checked_store(alloc: Global, bytes: &[u8]) -> Result<Store, StoreRefusal>
    ensures read { IfOk result (λ store. IsStoreBytes (rows_of store) bytes.now) }
    ensures refused { IfErr result (IsRefusalOf bytes.now) }
{
    reading_is_exact();
    if let Some((at, found)) = other_version(bytes) {
        return Err(StoreRefusal::OtherVersion { at, found });
    }
    match all(alloc, bytes) {
        Ok(rows) => store_of(alloc, &rows),
        Err(Fault::Memory) => Err(StoreRefusal::OutOfMemory),
        Err(Fault::Unlawful(left)) => Err(StoreRefusal::BadStore {
            at: bytes.len().saturating_sub(left),
        }),
    }
}

/// The store with the entries of these rows, if all of their data are right.
fn store_of(alloc: Global, rows: &[RowRef]) -> Result<Store, StoreRefusal>
    requires lawful { AllAfter IsRow None rows.now }
    requires few { length rows.now < 2 ^ 32 }
    ensures right { IfOk result (λ store. rows_of store ≡ rows.now) }
    ensures wrong { IfErr result (IsWrongIn rows.now) }
{
    let mut store = Store::empty(alloc);
    for row in rows {
        let right = store.take_in(row)?;
        if !right {
            return Err(StoreRefusal::WrongData {
                entry: store.len() + 1,
            });
        }
    }
    Ok(store)
}
