//! A store: the data of texts, by their characters and the kinds of their files.
ghost use Rattle.std.specs.Prelude.{◌≡◌, ◌<◌, ◌++◌, ◌==◌, [], length, IfOk, IfErr, OnOk, OnErr, List};
ghost use Rattle.std.specs.List.{flat_map};
ghost use Rattle.std.specs.Option.{option_copied, option_map};
ghost use Rattle.ide_text.specs.Text.{IsText};
ghost use Rattle.index_store.specs.declared.refusal.StoreRefusal.TheVariants.{OutOfMemory};
ghost use Rattle.index_store.specs.Answers.{IsRefusalOf};
ghost use Rattle.index_store.specs.Data.{StoreEntry as AnEntry};
ghost use Rattle.index_store.specs.Entries.{has_entry, rows_for, with_entry};
ghost use Rattle.index_store.specs.Held.{AreDataOf, IsTakenIn, Stored as Seen, held_bytes};
ghost use Rattle.index_store.specs.Lawful.{IsStoreBytes};
ghost use Rattle.index_store.specs.Spelling.{rows_of};

use crate::kind_code::code_of;
use crate::refusal::StoreRefusal;
use crate::row_reading::RowRef;
use crate::spelled::put_short_name;
use crate::store_reading::read_store;
use crate::stored::Stored;
use crate::text_reading::text_of_name;
use byte_fields::put_number;
use dumb_mode::FileKind;
use ide_text::{Name, Text};
use overlay_index::FileData;
use std::alloc::{AllocError, Global};
use std::collections::BTreeMap;
use std::marker::Model;

/// The versions of the format and of the rows of the five indexes.
const VERSIONS: [u8; 6] = [1, 1, 1, 1, 1, 1];

/// Texts, each with the kind of a file, and with the data that the indexes take from it. No text is there twice with
/// one kind.
#[derive(Drop)]
pub struct Store {
    alloc: Global,
    held: BTreeMap<(Name, u8), Stored>,
}

impl Model for Store {
    ghost use Rattle.std.specs.Prelude.{List, length, ◌<◌, ◌^◌};
    ghost use Rattle.std.specs.Map.{keys_of};
    ghost use Rattle.std.specs.List.Sorted.{IsStrictlySortedBy};
    ghost use Rattle.index_store.specs.Data.{StoreEntry};
    ghost use Rattle.index_store.specs.Held.{AreHeld, entries_in, key_cmp};

    ghost Value = { List StoreEntry };

    ghost view = { λ s. entries_in s.held.entries };

    ghost invariant = { λ s. AreHeld s.held.entries × IsStrictlySortedBy key_cmp (keys_of s.held.entries) × (length s.held.entries < 2 ^ 32) };
}

impl Store {
    /// The store without entries. It takes no memory.
    pub fn empty(alloc: Global) -> Store
        ensures { result ≡ [] }
    {
        Store {
            alloc,
            held: BTreeMap::new(alloc),
        }
    }

    /// The store that the bytes spell. Each entry's data are made anew from its text and compared, so the time is that of
    /// indexing all texts.
    ///
    /// Fields come before data: where a field is cut or unlawful, the first such one is told, whatever stands before it.
    pub fn read(alloc: Global, bytes: &[u8]) -> Result<Store, StoreRefusal>
        ensures read { IfOk result (λ store. IsStoreBytes (rows_of store) bytes.now) }
        ensures only { (entries : List AnEntry) → IsStoreBytes (rows_of entries) bytes.now
            → IfOk result (λ store. store ≡ entries)
            × IfErr result (λ refusal. refusal ≡ OutOfMemory) }
        ensures refused { IfErr result (IsRefusalOf bytes.now) }
    {
        read_store(alloc, bytes)
    }

    /// The bytes of the store, from which `read` makes it again.
    pub fn bytes(&self) -> Result<Vec<u8>, AllocError>
        ensures { IfOk result (λ bytes. IsStoreBytes (rows_of self.now) bytes.items) }
    {
        let mut out = Vec::new(self.alloc);
        out.extend_from_slice(&VERSIONS)?;
        put_number(&mut out, self.held.len() as u32)?;
        put_held(&mut out, &self.held)?;
        Ok(out)
    }

    /// The number of entries.
    pub fn len(&self) -> u32
        ensures { result ≡ length self.now }
    {
        self.held.len() as u32
    }

    /// Whether there is no entry.
    pub fn is_empty(&self) -> bool
        ensures { result ≡ (length self.now == 0) }
    {
        self.len() == 0
    }

    /// Adds a text with the kind of a file, and its data. An entry that is there already stays as it is; without memory all
    /// do.
    pub fn add(&mut self, kind: FileKind, text: &Text) -> Result<(), AllocError>
        requires { length self.old < 4294967295 }
        ensures ok { OnOk result
            (self.new ≡ with_entry (record { text = text.now; kind = kind }) self.old) }
        ensures err { OnErr result (self.new ≡ self.old) }
    {
        let stored = Stored::of(self.alloc, kind, text)?;
        let name = Name::of_text(self.alloc, text, 0, text.len())?;
        self.put(name, kind, stored)
    }

    /// Whether a text with this kind is among the entries. The time is that of copying the text where there is an entry, and
    /// the logarithm of the number of entries.
    pub fn has(&self, kind: FileKind, text: &Text) -> Result<bool, AllocError>
        ensures { IfOk result
            (λ has. has ≡ has_entry (record { text = text.now; kind = kind }) self.now) }
    {
        if self.held.is_empty() {
            return Ok(false);
        }
        let name = Name::of_text(self.alloc, text, 0, text.len())?;
        Ok(self.find(name, kind).is_some())
    }

    /// The rows that a text with this kind has in the indexes, if it is among the entries. The time is that of copying
    /// text and rows where there is an entry, and the logarithm of the number of entries.
    pub fn data_for(&self, kind: FileKind, text: &Text) -> Result<Option<FileData>, AllocError>
        ensures { IfOk result
            (λ found. found ≡ rows_for (record { text = text.now; kind = kind }) self.now) }
    {
        if self.held.is_empty() {
            return Ok(None);
        }
        let name = Name::of_text(self.alloc, text, 0, text.len())?;
        match self.find(name, kind) {
            Some(stored) => Ok(Some(stored.copy_rows(self.alloc)?)),
            None => Ok(None),
        }
    }

    /// The data of an entry.
    fn find(&self, text: Name, kind: FileKind) -> Option<&Stored>
        ensures { option_map (λ (d : Seen). d.0) (option_copied result)
            ≡ rows_for (record { text = text; kind = kind }) self.now }
    {
        let key = (text, code_of(kind));
        self.held.get(&key)
    }

    /// Takes in an entry that was read, behind all others, if its data are those of its text, and tells whether they are.
    pub(crate) fn take_in(&mut self, row: &RowRef) -> Result<bool, AllocError>
        requires text { IsText row.now.0.text }
        requires few { length self.old < 4294967295 }
        ensures { IfOk result (λ right. IsTakenIn right row.now self.old self.new) }
    {
        let stored = {
            let text = text_of_name(self.alloc, &row.text)?;
            Stored::of(self.alloc, row.kind, &text)?
        };
        if !stored.is_spelled(row.data) {
            drop(stored);
            return Ok(false);
        }
        match row.text.copy() {
            Ok(name) => {
                self.put(name, row.kind, stored)?;
                Ok(true)
            }
            Err(refusal) => {
                drop(stored);
                Err(refusal)
            }
        }
    }

    /// Puts an entry in.
    fn put(&mut self, text: Name, kind: FileKind, stored: Stored) -> Result<(), AllocError>
        requires text { IsText text }
        requires right { AreDataOf (record { text = text; kind = kind }) stored }
        requires few { length self.old < 4294967295 }
        ensures ok { OnOk result
            (self.new ≡ with_entry (record { text = text; kind = kind }) self.old) }
        ensures err { OnErr result (self.new ≡ self.old) }
    {
        drop(self.held.insert((text, code_of(kind)), stored)?);
        Ok(())
    }
}

/// Puts entries at the end.
fn put_held(out: &mut Vec<u8>, held: &BTreeMap<(Name, u8), Stored>) -> Result<(), AllocError>
    ensures { OnOk result (out.new.items ≡ out.old.items ++ flat_map held_bytes held.now.entries) }
{
    for (key, stored) in held {
        put_entry(out, key, stored)?;
    }
    Ok(())
}

/// Puts an entry at the end.
fn put_entry(out: &mut Vec<u8>, key: &(Name, u8), stored: &Stored) -> Result<(), AllocError>
    ensures { OnOk result (out.new.items ≡ out.old.items ++ held_bytes (key.now, stored.now)) }
{
    out.push(key.1)?;
    put_short_name(out, &key.0)?;
    out.extend_from_slice(&stored.spelled)
}
