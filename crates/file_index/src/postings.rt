//! Which files may have rows under a key.
ghost use Rattle.std.specs.Prelude.{◌≡◌, ℕ, [], Bool, false, Some, None, if◌then◌else◌, ◌||◌, ◌&&◌, not, ◌==◌, OnErr, OnOk, IfOk};
ghost use Rattle.std.specs.Ordering.{nat_cmp};
ghost use Rattle.std.specs.Option.{is_some};
ghost use Rattle.std.specs.Map.{lookup};
ghost use Rattle.std.specs.List.Sorted.{IsStrictlySortedBy};
ghost use Rattle.file_index.specs.Places.{has_id, ids_at, is_placed};

use crate::Indexer;
use crate::ids::Ids;
use indexmap::IndexMap;
use std::alloc::{AllocError, Global};
use std::hash::Hash;
use std::marker::Model;

/// The files that may have rows under each key: for each key their ids, which rise.
///
/// No answer depends on the order of the keys.
#[derive(Drop)]
pub struct Postings<K: Eq + Hash> {
    files: IndexMap<K, Ids>,
}

impl<K: Eq + Hash> Model for Postings<K> {
    ghost use Rattle.std.specs.Prelude.{List, ℕ};

    ghost Value = { List (K × List ℕ) };

    ghost view = { λ p. p.files.entries };
}

impl<K: Eq + Hash> Postings<K> {
    /// No files under any key.
    pub(crate) fn new(alloc: Global) -> Postings<K>
        ensures { result ≡ [] }
    {
        Postings {
            files: IndexMap::new(alloc),
        }
    }

    /// The ids of the files that may have rows under a key.
    pub(crate) fn at(&self, key: &K) -> &[u32]
        ensures ids { result.now ≡ ids_at K.eq key.now self.now }
        ensures rises { IsStrictlySortedBy nat_cmp result.now }
    {
        match self.files.get(key) {
            Some(ids) => ids.as_slice(),
            None => &[],
        }
    }

    /// Puts a file under a key if the key is there, and tells whether it is.
    pub(crate) fn add_to(&mut self, key: &K, file: u32) -> Result<bool, AllocError>
        ensures known { IfOk result (λ known. known ≡ is_some (lookup (K.eq key.now) self.old)) }
        ensures absent { IfOk result (λ known. known ≡ false → self.new ≡ self.old) }
        ensures added { IfOk result
            (λ known. (k : K) (j : ℕ)
            → is_placed K.eq self.new k j
            ≡ (is_placed K.eq self.old k j || (known && K.eq key.now k && j == file))) }
        ensures unchanged { OnErr result
            ((k : K) (j : ℕ) → is_placed K.eq self.new k j ≡ is_placed K.eq self.old k j) }
    {
        match self.files.get_mut(key) {
            Some(ids) => {
                ids.add(file)?;
                Ok(true)
            }
            None => Ok(false),
        }
    }

    /// Puts a file under a key that isn't there.
    pub(crate) fn add_new(&mut self, key: K, file: u32) -> Result<(), AllocError>
    where
        K: Drop,
        requires { is_some (lookup (K.eq key) self.old) ≡ false }
        ensures added { OnOk result
            ((k : K) (j : ℕ)
            → is_placed K.eq self.new k j
            ≡ (is_placed K.eq self.old k j || (K.eq key k && j == file))) }
        ensures unchanged { OnErr result (self.new ≡ self.old) }
    {
        let ids = Ids::of(*self.files.allocator(), file)?;
        self.files.insert(key, ids)?;
        Ok(())
    }

    /// Takes a file out from under a key. A key without files goes.
    pub(crate) fn take_out(&mut self, key: &K, file: u32)
    where
        K: Drop,
        ensures placed { (k : K) (j : ℕ)
            → is_placed K.eq self.new k j
            ≡ (is_placed K.eq self.old k j && not (K.eq key.now k && j == file)) }
        ensures gone { ids_at K.eq key.now self.new ≡ [] → lookup (K.eq key.now) self.new ≡ None }
    {
        let Some(ids) = self.files.get_mut(key) else {
            return;
        };
        ids.take(file);
        if ids.is_empty() {
            self.files.swap_remove(key);
        }
    }
}

/// The same files under the same keys once more.
pub(crate) fn copy_postings<I: Indexer>(
    alloc: Global,
    indexer: &I,
    postings: &Postings<I::Key>,
) -> Result<Postings<I::Key>, AllocError>
    ensures { IfOk result
        (λ copy. (k : I.Key) (j : ℕ)
        → is_placed I.Key.eq copy k j ≡ is_placed I.Key.eq postings.now k j) }
{
    let mut files = IndexMap::with_capacity(alloc, postings.files.len())?;
    for (key, ids) in &postings.files {
        copy_entry(alloc, indexer, &mut files, key, ids)?;
    }
    Ok(Postings { files })
}

/// Puts copies of a key and its ids in.
fn copy_entry<I: Indexer>(
    alloc: Global,
    indexer: &I,
    files: &mut IndexMap<I::Key, Ids>,
    key: &I::Key,
    ids: &Ids,
) -> Result<(), AllocError>
    ensures { OnOk result ((k : I.Key) → lookup (I.Key.eq k) files.new.entries
        ≡ (if I.Key.eq key.now k then Some ids.now else lookup (I.Key.eq k) files.old.entries)) }
{
    let key = indexer.copy_key(alloc, key)?;
    let ids = ids.copy()?;
    files.insert(key, ids)?;
    Ok(())
}
