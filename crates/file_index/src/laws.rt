//! Laws of rows: functions that do nothing, whose contracts are the laws.
ghost use Rattle.std.specs.Prelude.{◌≡◌, List};
ghost use Rattle.std.specs.List.Sorted.{IsStrictlySortedBy};
ghost use Rattle.std.specs.Map.{keys_of};
ghost use Rattle.file_index.specs.KeyRows.{by_keys, rows_with, AreInOrder};

use crate::indexer::Rank;

/// Rows that are sorted by their keys have the rows of each key as they came.
pub fn sorting_keeps_the_rows_of_a_key<K: Ord, V>()
    ensures { (key : K) (rows : List (K × V))
        → rows_with K.eq key (by_keys K.cmp rows) ≡ rows_with K.eq key rows }
{}

/// Rows whose keys rise are in order.
pub fn rows_of_rising_keys_are_in_order<K: Ord, V: Rank>()
    ensures { (rows : List (K × V)) → IsStrictlySortedBy K.cmp (keys_of rows)
        → AreInOrder K.cmp V.rank_of rows }
{}
