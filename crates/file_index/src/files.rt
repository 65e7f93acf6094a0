//! The rows of each file, at the place of its id.
ghost use Rattle.std.specs.Prelude.{◌≡◌, ◌<◌, ℕ, List, [], Bool, true, if◌then◌else◌, is_some, unwrap_or, OnOk, IfOk, ◌==◌, false, length, Some, None, slice_set, slice_index_or};
ghost use Rattle.std.specs.Option.{option_copied};
ghost use Rattle.std.specs.Ordering.{nat_cmp};
ghost use Rattle.std.specs.List.Sorted.{IsStrictlySortedBy};
ghost use Rattle.std.specs.BTreeMap.{is_at};
ghost use Rattle.std.specs.Map.{lookup};
ghost use Rattle.file_index.specs.KeyRows.{has_key, rows_with};
ghost use Rattle.file_index.specs.Slots.{standing};
ghost use Rattle.file_index.specs.Walk.{HasAllFiles, walked};
ghost use Rattle.file_index.specs.Rows.{is_known, rows_of, rows_at, rows_in_file, with_rows, without_file, IsKnownByRows};

use crate::key_rows::copy_rows;
use crate::{Indexer, KeyRows, Rank, RowWalk};
use std::alloc::{AllocError, Global};
use std::marker::Model;
use std::mem;

/// The files that are known, each with its rows at the place of its id. Seen as a list of them, by rising ids.
#[derive(Drop)]
pub(crate) struct FileRows<K: Ord, V: Rank> {
    slots: Vec<Option<KeyRows<K, V>>>,
}

impl<K: Ord, V: Rank> Model for FileRows<K, V> {
    ghost use Rattle.std.specs.Prelude.{List, ℕ};

    ghost Value = { List (ℕ × List (K × V)) };

    ghost use Rattle.file_index.specs.Slots.{standing};

    ghost view = { λ f. standing f.slots.items };
}

impl<K: Ord, V: Rank> FileRows<K, V> {
    /// No files.
    pub(crate) fn new(alloc: Global) -> FileRows<K, V>
        ensures { result ≡ [] }
    {
        FileRows {
            slots: Vec::new(alloc),
        }
    }

    /// The rows of a file with a key.
    pub(crate) fn at(&self, file: u32, key: &K) -> &[(K, V)]
        ensures { result.now ≡ rows_with K.eq key.now (rows_in_file file self.now) }
    {
        match self.rows(file) {
            Some(rows) => rows.at(key),
            None => &[],
        }
    }

    /// The rows of a file, if it is known.
    fn rows(&self, file: u32) -> Option<&KeyRows<K, V>>
        ensures { option_copied result ≡ lookup (is_at (nat_cmp file)) self.now }
    {
        standing_at(&self.slots, file)
    }

    /// Whether a row of a file has a key.
    pub(crate) fn has_key(&self, file: u32, key: &K) -> bool
        ensures { result ≡ has_key K.eq key.now (rows_in_file file self.now) }
    {
        match self.rows(file) {
            Some(rows) => rows.has_key(key),
            None => false,
        }
    }

    /// A walk over the rows under a key, given the ids of all files that have any.
    pub(crate) fn walk<'a>(&'a self, ids: &'a [u32], key: &'a K) -> RowWalk<'a, K, V>
        requires rises { IsStrictlySortedBy nat_cmp ids.now }
        requires all { HasAllFiles K.eq key.now self.now ids.now }
        ensures rows { result ≡ rows_at K.eq key.now (rows_of self.now) }
        ensures by_files { (others : List ℕ) → IsStrictlySortedBy nat_cmp others
            → HasAllFiles K.eq key.now self.now others
            → result ≡ walked K.eq key.now self.now others }
    {
        let _ = &self.slots;
        RowWalk::new(self, ids, key)
    }

    /// Lets a file be known; one that isn't yet comes in without rows.
    pub(crate) fn make_known(&mut self, alloc: Global, file: u32) -> Result<(), AllocError>
    where
        K: Drop,
        V: Drop,
        ensures same { rows_of self.new ≡ rows_of self.old }
        ensures each { (j : ℕ) → rows_in_file j self.new ≡ rows_in_file j self.old }
        ensures known { OnOk result (is_known file self.new ≡ true) }
        ensures stays { (j : ℕ) → is_known j self.old ≡ true → is_known j self.new ≡ true }
    {
        make_place(&mut self.slots, file)?;
        if self.rows(file).is_none() {
            fill(&mut self.slots, file, KeyRows::new(alloc));
        }
        Ok(())
    }

    /// Gives a file that is known these rows, and returns those that it had.
    pub(crate) fn put(&mut self, file: u32, new: KeyRows<K, V>) -> KeyRows<K, V>
    where
        K: Drop,
        V: Drop,
        requires { is_known file self.old ≡ true }
        ensures old { result ≡ rows_in_file file self.old }
        ensures rows { rows_of self.new ≡ with_rows file new (rows_of self.old) }
        ensures each { (j : ℕ)
            → rows_in_file j self.new ≡ (if j == file then new else rows_in_file j self.old) }
        ensures stays { (j : ℕ) → is_known j self.old ≡ true → is_known j self.new ≡ true }
    {
        match write(&mut self.slots, file, new) {
            Some(old) => old,
            None => unreachable!(),
        }
    }

    /// Takes a file's rows out, and returns them. It is as known as it was.
    pub(crate) fn clear(&mut self, alloc: Global, file: u32) -> KeyRows<K, V>
    where
        K: Drop,
        V: Drop,
        ensures old { result ≡ rows_in_file file self.old }
        ensures rows { rows_of self.new ≡ without_file file (rows_of self.old) }
        ensures each { (j : ℕ)
            → rows_in_file j self.new ≡ (if j == file then [] else rows_in_file j self.old) }
        ensures stays { (j : ℕ) → is_known j self.old ≡ true → is_known j self.new ≡ true }
    {
        let _ = &self.slots;
        if self.rows(file).is_none() {
            return KeyRows::new(alloc);
        }
        self.put(file, KeyRows::new(alloc))
    }

    /// Lets a file without rows be known no more.
    pub(crate) fn forget(&mut self, file: u32)
    where
        K: Drop,
        V: Drop,
        ensures rows { rows_of self.new ≡ rows_of self.old }
        ensures each { (j : ℕ) → rows_in_file j self.new ≡ rows_in_file j self.old }
        ensures stays { (j : ℕ) → (j == file) ≡ false → is_known j self.old ≡ true
            → is_known j self.new ≡ true }
        ensures forgotten { IsKnownByRows file self.new }
    {
        let _ = &self.slots;
        if self.has_none(file) {
            self.take(file);
        }
    }

    /// Whether a file has no rows.
    fn has_none(&self, file: u32) -> bool
        ensures { result ≡ (length (rows_in_file file self.now) == 0) }
    {
        match self.rows(file) {
            Some(rows) => rows.is_empty(),
            None => true,
        }
    }

    /// Takes a file out, and returns its rows if it was known.
    pub(crate) fn take(&mut self, file: u32) -> Option<KeyRows<K, V>>
        ensures old { unwrap_or result [] ≡ rows_in_file file self.old }
        ensures rows { rows_of self.new ≡ without_file file (rows_of self.old) }
        ensures each { (j : ℕ)
            → rows_in_file j self.new ≡ (if j == file then [] else rows_in_file j self.old) }
        ensures stays { (j : ℕ) → (j == file) ≡ false → is_known j self.old ≡ true
            → is_known j self.new ≡ true }
        ensures forgotten { is_known file self.new ≡ false }
    {
        empty(&mut self.slots, file)
    }
}

/// Makes a place for a file.
fn make_place<K: Ord + Drop, V: Rank + Drop>(
    slots: &mut Vec<Option<KeyRows<K, V>>>,
    file: u32,
) -> Result<(), AllocError>
    ensures same { standing slots.new.items ≡ standing slots.old.items }
    ensures place { OnOk result (file < length slots.new.items) }
{
    for _ in slots.len()..file as usize + 1 {
        slots.push(None)?;
    }
    Ok(())
}

/// What stands at the place of a file.
fn standing_at<K: Ord, V: Rank>(
    slots: &[Option<KeyRows<K, V>>],
    file: u32,
) -> Option<&KeyRows<K, V>>
    ensures { option_copied result ≡ slice_index_or slots.now file None }
{
    match slots.get(file as usize) {
        Some(Some(rows)) => Some(rows),
        _ => None,
    }
}

/// Writes rows at the place of a file, and gives back what stood there.
fn write<K: Ord, V: Rank>(
    slots: &mut Vec<Option<KeyRows<K, V>>>,
    file: u32,
    rows: KeyRows<K, V>,
) -> Option<KeyRows<K, V>>
    requires { file < length slots.old.items }
    ensures old { result ≡ slice_index_or slots.old.items file None }
    ensures slots { slots.new.items ≡ slice_set slots.old.items file (Some rows) }
{
    mem::replace(&mut slots[file as usize], Some(rows))
}

/// Writes rows at the place of a file.
fn fill<K: Ord + Drop, V: Rank + Drop>(
    slots: &mut Vec<Option<KeyRows<K, V>>>,
    file: u32,
    rows: KeyRows<K, V>,
)
    requires { file < length slots.old.items }
    ensures { slots.new.items ≡ slice_set slots.old.items file (Some rows) }
{
    slots[file as usize] = Some(rows);
}

/// Empties the place of a file, if it has one, and gives back what stood there.
fn empty<K: Ord, V: Rank>(
    slots: &mut Vec<Option<KeyRows<K, V>>>,
    file: u32,
) -> Option<KeyRows<K, V>>
    ensures old { result ≡ slice_index_or slots.old.items file None }
    ensures slots { slots.new.items ≡ slice_set slots.old.items file None }
{
    if (file as usize) < slots.len() {
        return mem::replace(&mut slots[file as usize], None);
    }
    None
}

/// The same files once more.
pub(crate) fn copy_files<I: Indexer>(
    alloc: Global,
    indexer: &I,
    files: &FileRows<I::Key, I::Value>,
) -> Result<FileRows<I::Key, I::Value>, AllocError>
    ensures { IfOk result (λ copy. copy ≡ files.now) }
{
    Ok(FileRows {
        slots: copy_slots(alloc, indexer, &files.slots)?,
    })
}

/// What stands at all places once more.
fn copy_slots<I: Indexer>(
    alloc: Global,
    indexer: &I,
    slots: &[Option<KeyRows<I::Key, I::Value>>],
) -> Result<Vec<Option<KeyRows<I::Key, I::Value>>>, AllocError>
    ensures { IfOk result (λ copy. copy.items ≡ slots.now) }
{
    let mut copy = Vec::with_capacity(alloc, slots.len())?;
    for slot in slots {
        copy.push(copy_slot(alloc, indexer, slot)?)?;
    }
    Ok(copy)
}

/// What stands at a place once more.
fn copy_slot<I: Indexer>(
    alloc: Global,
    indexer: &I,
    slot: &Option<KeyRows<I::Key, I::Value>>,
) -> Result<Option<KeyRows<I::Key, I::Value>>, AllocError>
    ensures { IfOk result (λ copy. copy ≡ slot.now) }
{
    match slot {
        Some(rows) => Ok(Some(copy_rows(alloc, indexer, rows)?)),
        None => Ok(None),
    }
}
