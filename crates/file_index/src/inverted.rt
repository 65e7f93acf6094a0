//! The rows of all files, and where to find those under a key.
ghost use Rattle.std.specs.Prelude.{◌≡◌, ℕ, List, [], Bool, if◌then◌else◌, ◌&&◌, ◌||◌, false, not, ◌==◌, OnErr, OnOk, IfOk};
ghost use Rattle.std.specs.Ordering.{nat_cmp};
ghost use Rattle.std.specs.List.Sorted.{IsStrictlySortedBy};
ghost use Rattle.file_index.specs.Walk.{HasAllFiles, walked};
ghost use Rattle.file_index.specs.Rows.{rows, rows_in_file, with_rows, without_file, rows_at, is_known, IsKnownByRows};
ghost use Rattle.file_index.specs.Rows.{HasRoom, KeepsRoom, KeepsRoomBut, GivesUp};
ghost use Rattle.file_index.specs.KeyRows.{has_key};
ghost use Rattle.file_index.specs.Places.{is_placed};

use crate::files::{FileRows, copy_files};
use crate::postings::{Postings, copy_postings};
use crate::{Indexer, KeyRows, Rank, RowWalk};
use std::alloc::{AllocError, Global};
use std::hash::Hash;
use std::marker::Model;

/// An inverted index: the rows of each file, found by their keys.
///
/// A change of a file costs the rows that it had and gets, each the logarithm of the number of files under its key and
/// the move of the ids behind it; no row of another file is touched.
#[derive(Drop)]
pub struct Inverted<I: Indexer> {
    alloc: Global,
    indexer: I,
    files: FileRows<I::Key, I::Value>,
    postings: Postings<I::Key>,
}

impl<I: Indexer> Model for Inverted<I> {
    ghost use Rattle.file_index.specs.Rows.{Table, AllPlaced};

    ghost Value = { Table I.Key I.Value };

    ghost view = { λ t. record { files = t.files; room = t.postings } };

    ghost invariant = { λ t. AllPlaced I.Key.eq t.files t.postings };
}

impl<I: Indexer> Inverted<I> {
    /// No rows.
    pub fn new(alloc: Global, indexer: I) -> Inverted<I>
        ensures { result.files ≡ [] }
    {
        Inverted {
            alloc,
            indexer,
            files: FileRows::new(alloc),
            postings: Postings::new(alloc),
        }
    }

    /// The rows under a key, by the files and then by the values. It takes no memory; a step costs the logarithm of the
    /// numbers of files and of the file's rows.
    pub fn rows<'a>(&'a self, key: &'a I::Key) -> RowWalk<'a, I::Key, I::Value>
        ensures rows { result ≡ rows_at I.Key.eq key.now (rows self.now) }

        // So the files rise: over any rising ids among which are all files with such a row, it is file after file.
        ensures by_files { (ids : List ℕ) → IsStrictlySortedBy nat_cmp ids
            → HasAllFiles I.Key.eq key.now self.now.files ids
            → result ≡ walked I.Key.eq key.now self.now.files ids }
    {
        self.files.walk(self.postings.at(key), key)
    }

    /// Makes room for a file's rows, so that `swap` and `replace` with them take no memory. No row changes.
    pub fn reserve(&mut self, file: u32, new: &KeyRows<I::Key, I::Value>) -> Result<(), AllocError>
        ensures same { rows self.new ≡ rows self.old }
        ensures each { (j : ℕ) → rows_in_file j self.new.files ≡ rows_in_file j self.old.files }
        ensures room { OnOk result (HasRoom I.Key.eq self.new file new.now) }
        ensures keeps_room { KeepsRoom I.Key.eq self.old self.new }
    {
        self.files.make_known(self.alloc, file)?;
        for (key, _) in new.as_slice() {
            self.mark(key, file)?;
        }
        Ok(())
    }

    /// Puts a file under a key.
    fn mark(&mut self, key: &I::Key, file: u32) -> Result<(), AllocError>
        ensures files { self.new.files ≡ self.old.files }
        ensures marked { OnOk result
            ((k : I.Key) (j : ℕ)
            → is_placed I.Key.eq self.new.room k j
            ≡ (is_placed I.Key.eq self.old.room k j || (I.Key.eq key.now k && j == file))) }
        ensures unchanged { OnErr result
            ((k : I.Key) (j : ℕ)
            → is_placed I.Key.eq self.new.room k j ≡ is_placed I.Key.eq self.old.room k j) }
    {
        if !self.postings.add_to(key, file)? {
            let copy = self.indexer.copy_key(self.alloc, key)?;
            self.postings.add_new(copy, file)?;
        }
        Ok(())
    }

    /// Gives a file these rows, and gives back those that it had. All room is kept, also that of the rows that go, so
    /// that they may come back; `release` with them gives it up.
    pub fn swap(&mut self, file: u32, new: KeyRows<I::Key, I::Value>) -> KeyRows<I::Key, I::Value>
        requires { HasRoom I.Key.eq self.old file new }
        ensures old { result ≡ rows_in_file file self.old.files }
        ensures swapped { rows self.new ≡ with_rows file new (rows self.old) }
        ensures each { (j : ℕ)
            → rows_in_file j self.new.files
            ≡ (if j == file then new else rows_in_file j self.old.files) }
        ensures keeps_room { KeepsRoom I.Key.eq self.old self.new }
        ensures places { self.new.room ≡ self.old.room }
    {
        self.files.put(file, new)
    }

    /// Takes a file's rows out, and gives them back. All room is kept, also that of the rows that go.
    pub fn withdraw(&mut self, file: u32) -> KeyRows<I::Key, I::Value>
        ensures old { result ≡ rows_in_file file self.old.files }
        ensures withdrawn { rows self.new ≡ without_file file (rows self.old) }
        ensures each { (j : ℕ)
            → rows_in_file j self.new.files
            ≡ (if j == file then [] else rows_in_file j self.old.files) }
        ensures keeps_room { KeepsRoom I.Key.eq self.old self.new }
        ensures places { self.new.room ≡ self.old.room }
    {
        self.files.clear(self.alloc, file)
    }

    /// Gives a file these rows in place of those that it has.
    pub fn replace(&mut self, file: u32, new: KeyRows<I::Key, I::Value>)
        requires { HasRoom I.Key.eq self.old file new }
        ensures replaced { rows self.new ≡ with_rows file new (rows self.old) }
        ensures keeps_room { KeepsRoomBut I.Key.eq file self.old self.new }
        ensures room { HasRoom I.Key.eq self.new file new }
        ensures given_up { GivesUp I.Key.eq file
            (rows_in_file file self.old.files) self.old self.new }
    {
        let old = self.swap(file, new);
        self.release(file, &old);
    }

    /// Takes a file's rows out.
    pub fn remove(&mut self, file: u32)
        ensures removed { rows self.new ≡ without_file file (rows self.old) }
        ensures keeps_room { KeepsRoomBut I.Key.eq file self.old self.new }
        ensures given_up { GivesUp I.Key.eq file
            (rows_in_file file self.old.files) self.old self.new }
        ensures forgotten { is_known file self.new.files ≡ false }
    {
        if let Some(old) = self.files.take(file) {
            take_out_all(&mut self.postings, &self.files, file, &old);
        }
    }

    /// Gives up the room that was made for a file's rows: it stands no more under keys that none of its rows has.
    pub fn release(&mut self, file: u32, given: &KeyRows<I::Key, I::Value>)
        ensures same { self.new.files ≡ self.old.files }
        ensures keeps_room { KeepsRoomBut I.Key.eq file self.old self.new }
        ensures room { HasRoom I.Key.eq self.old file (rows_in_file file self.old.files)
            → HasRoom I.Key.eq self.new file (rows_in_file file self.old.files) }
        ensures given_up { GivesUp I.Key.eq file given.now self.old self.new }
    {
        take_out_all(&mut self.postings, &self.files, file, given);
    }

    /// Gives up the place of a file that has no rows.
    pub fn forget(&mut self, file: u32)
        ensures same { rows self.new ≡ rows self.old }
        ensures each { (j : ℕ) → rows_in_file j self.new.files ≡ rows_in_file j self.old.files }
        ensures keeps_room { KeepsRoomBut I.Key.eq file self.old self.new }
        ensures places { self.new.room ≡ self.old.room }
        ensures forgotten { IsKnownByRows file self.new.files }
    {
        self.files.forget(file);
    }

    /// The same index once more.
    pub fn copy(&self) -> Result<Inverted<I>, AllocError>
        ensures { IfOk result (λ copy. copy.files ≡ self.now.files) }
    {
        Ok(Inverted {
            alloc: self.alloc,
            indexer: self.indexer,
            files: copy_files(self.alloc, &self.indexer, &self.files)?,
            postings: copy_postings(self.alloc, &self.indexer, &self.postings)?,
        })
    }
}

/// Takes a file out from under the keys of rows that it had and that none of its rows has now.
fn take_out_all<K: Ord + Hash + Drop, V: Rank>(
    postings: &mut Postings<K>,
    files: &FileRows<K, V>,
    file: u32,
    old: &KeyRows<K, V>,
)
    ensures { (k : K) (j : ℕ)
        → is_placed K.eq postings.new k j
        ≡ (is_placed K.eq postings.old k j && not
        (j == file && has_key K.eq k old.now && not
        (has_key K.eq k (rows_in_file file files.now)))) }
{
    for (key, _) in old.as_slice() {
        if !files.has_key(file, key) {
            postings.take_out(key, file);
        }
    }
}
