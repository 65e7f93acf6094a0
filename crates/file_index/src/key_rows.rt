//! The rows of one input.
ghost use Rattle.std.specs.Prelude.{◌≡◌, ◌≤◌, [], length, ◌==◌, true, false, IfOk};
ghost use Rattle.std.specs.List.Sorted.{IsPartitionPoint};
ghost use Rattle.std.specs.Ordering.{is_lt, is_le};
ghost use Rattle.file_index.specs.KeyRows.{AreInOrder, by_keys, has_key, rows_with};

use crate::{Indexer, Rank};
use std::alloc::{AllocError, Global};
use std::collections::BTreeMap;
use std::marker::Model;

/// Rows of a key and a value, which rise, first by the keys and then by the places of the values.
#[derive(Drop)]
pub struct KeyRows<K: Ord, V: Rank> {
    rows: Vec<(K, V)>,
}

impl<K: Ord, V: Rank> Model for KeyRows<K, V> {
    ghost use Rattle.std.specs.Prelude.{List};
    ghost use Rattle.file_index.specs.KeyRows.{AreInOrder};

    ghost Value = { List (K × V) };

    ghost view = { λ r. r.rows.items };

    ghost invariant = { λ r. AreInOrder K.cmp V.rank_of r.rows.items };
}

impl<K: Ord, V: Rank> KeyRows<K, V> {
    /// No rows.
    pub fn new(alloc: Global) -> KeyRows<K, V>
        ensures { result ≡ [] }
    {
        KeyRows {
            rows: Vec::new(alloc),
        }
    }

    /// Rows that are in order.
    pub fn from_ordered(rows: Vec<(K, V)>) -> KeyRows<K, V>
        requires { AreInOrder K.cmp V.rank_of rows.items }
        ensures { result ≡ rows.items }
    {
        KeyRows { rows }
    }

    /// Rows in any order of their keys, those of one key by the places of their values. They are sorted; without memory
    /// for it they are gone.
    pub fn from_rows(rows: Vec<(K, V)>) -> Result<KeyRows<K, V>, AllocError>
    where
        K: Drop,
        V: Drop,
        requires { (key : K) → AreInOrder K.cmp V.rank_of (rows_with K.eq key rows.items) }
        ensures { IfOk result (λ made. made ≡ by_keys K.cmp rows.items) }
    {
        let mut rows = rows;
        rows.sort_by(|a, b| a.0.cmp(&b.0))?;
        Ok(KeyRows { rows })
    }

    /// Rows of keys with one value each.
    pub fn from_map(alloc: Global, map: BTreeMap<K, V>) -> Result<KeyRows<K, V>, AllocError>
    where
        K: Drop,
        V: Drop,
        ensures { IfOk result (λ rows. rows ≡ map.entries) }
    {
        let mut rows = Vec::with_capacity(alloc, map.len())?;
        for row in map {
            rows.push(row)?;
        }
        Ok(KeyRows { rows })
    }

    /// The number of rows.
    pub fn len(&self) -> usize
        ensures { result ≡ length self.now }
    {
        self.rows.len()
    }

    /// Whether there is no row.
    pub fn is_empty(&self) -> bool
        ensures { result ≡ (length self.now == 0) }
    {
        self.rows.is_empty()
    }

    /// The rows.
    pub fn as_slice(&self) -> &[(K, V)]
        ensures rows { result.now ≡ self.now }
        ensures in_order { AreInOrder K.cmp V.rank_of self.now }
    {
        &self.rows
    }

    /// The rows with a key. The time is the logarithm of the number of rows.
    pub fn at(&self, key: &K) -> &[(K, V)]
        ensures { result.now ≡ rows_with K.eq key.now self.now }
    {
        let rows = self.as_slice();
        let (_, from) = rows.split_at(first_from(rows, key));
        let (run, _) = from.split_at(first_after(from, key));
        run
    }

    /// Whether a row has the key. The time is the logarithm of the number of rows.
    pub fn has_key(&self, key: &K) -> bool
        ensures { result ≡ has_key K.eq key.now self.now }
    {
        !self.at(key).is_empty()
    }
}

/// The same rows once more.
pub fn copy_rows<I: Indexer>(
    alloc: Global,
    indexer: &I,
    rows: &KeyRows<I::Key, I::Value>,
) -> Result<KeyRows<I::Key, I::Value>, AllocError>
    ensures { IfOk result (λ copy. copy ≡ rows.now) }
{
    let mut copies = Vec::new(alloc);
    for (key, value) in rows.as_slice() {
        copies.push((
            indexer.copy_key(alloc, key)?,
            indexer.copy_value(alloc, value)?,
        ))?;
    }
    Ok(KeyRows::from_ordered(copies))
}

/// How many of the rows, which are in order, have a key below this one.
fn first_from<K: Ord, V: Rank>(rows: &[(K, V)], key: &K) -> usize
    requires { AreInOrder K.cmp V.rank_of rows.now }
    ensures bound { result ≤ length rows.now }
    ensures parts { IsPartitionPoint (λ row. is_lt (K.cmp row.0 key.now) ≡ true)
        (λ row. is_lt (K.cmp row.0 key.now) ≡ false) rows.now result }
{
    rows.partition_point(|row| row.0.cmp(key).is_lt())
}

/// How many of the rows, which are in order, have no key above this one.
fn first_after<K: Ord, V: Rank>(rows: &[(K, V)], key: &K) -> usize
    requires { AreInOrder K.cmp V.rank_of rows.now }
    ensures bound { result ≤ length rows.now }
    ensures parts { IsPartitionPoint (λ row. is_le (K.cmp row.0 key.now) ≡ true)
        (λ row. is_le (K.cmp row.0 key.now) ≡ false) rows.now result }
{
    rows.partition_point(|row| row.0.cmp(key).is_le())
}
