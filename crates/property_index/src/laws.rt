//! Laws of the keys: functions that do nothing, whose contracts are the laws.
ghost use Rattle.std.specs.Prelude.{◌≡◌, ℕ, List, length};
ghost use Rattle.std.specs.Str.{bytes_eq};
ghost use Rattle.file_index.specs.KeyRows.{values_with};
ghost use Rattle.property_index.specs.Keys.{RiseFrom, keys_of, key_rows, places_of_key};

use file_index::laws::sorting_keeps_the_rows_of_a_key;
use ide_text::Name;

/// The offsets of the keys of a text rise and lie inside the text, and no key is empty.
pub fn keys_stand_in_the_text()
    ensures { (text : List ℕ) → RiseFrom 0 (length text) (keys_of text) }
{}

/// Under a key stand the offsets at which it stands in the text, in order.
pub fn keys_are_found_by_their_characters()
    ensures { (text key : List ℕ)
        → values_with bytes_eq key (key_rows text) ≡ places_of_key key text }
{
    sorting_keeps_the_rows_of_a_key::<Name, u32>();
}
