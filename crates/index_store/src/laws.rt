//! Laws of the format and of entries: functions that do nothing, whose contracts are the laws.
ghost use Rattle.std.specs.Prelude.{◌≡◌, ◌<◌, ◌||◌, ℕ, List, All, None, Ok};
ghost use Rattle.std.specs.Ordering.{is_eq};
ghost use Rattle.std.specs.declared.cmp.Ordering.TheVariants.{Equal};
ghost use Rattle.index_store.specs.Data.{StoreEntry, entry_cmp};
ghost use Rattle.index_store.specs.Entries.{has_entry, with_entry};
ghost use Rattle.index_store.specs.Lawful.{IsStoreBytes};
ghost use Rattle.index_store.specs.Reading.{all_of, other_version};
ghost use Rattle.index_store.specs.Spelling.{StoreRow};

use stub_codec::laws::stub_lists_are_read_back;

/// Reading from left to right meets no other version and no fault exactly where the bytes are those of a store, and then it
/// gives what the store holds.
pub fn reading_is_exact()
    ensures read { (bytes : List ℕ) (rows : List StoreRow) → All (λ b. b < 256) bytes
        → other_version bytes ≡ None → all_of bytes ≡ Ok rows → IsStoreBytes rows bytes }
    ensures again { (bytes : List ℕ) (rows : List StoreRow) → IsStoreBytes rows bytes
        → (other_version bytes ≡ None) × (all_of bytes ≡ Ok rows) }
{
    stub_lists_are_read_back();
}

/// Entries of which neither is above the other are one.
pub fn equal_entries_are_one()
    ensures same { (a b : StoreEntry) → entry_cmp a b ≡ Equal → a ≡ b }
    ensures itself { (a : StoreEntry) → entry_cmp a a ≡ Equal }
{}

/// Once an entry was added, it is there, and so is each that was there before, and no other.
pub fn one_entry_is_added()
    ensures { (x e : StoreEntry) (es : List StoreEntry)
        → has_entry x (with_entry e es) ≡ (is_eq (entry_cmp x e) || has_entry x es) }
{}
