//! A walk over the rows under a key.
ghost use Rattle.std.specs.Prelude.{◌≡◌};
ghost use Rattle.std.specs.Iterator.{YieldsFirstBy, item_count};
ghost use Rattle.file_index.specs.Walk.{walked};

use crate::Rank;
use crate::files::FileRows;
use std::marker::Model;

/// The rows under a key, each as its file and its value, seen as those that are left.
#[derive(Drop)]
pub struct RowWalk<'a, K: Ord, V: Rank> {
    files: &'a FileRows<K, V>,
    ids: &'a [u32],
    key: &'a K,
    /// The file of `run`, the rows that come next.
    file: u32,
    run: &'a [(K, V)],
}

impl<'a, K: Ord, V: Rank> Model for RowWalk<'a, K, V> {
    ghost use Rattle.std.specs.Prelude.{List, ℕ};
    ghost use Rattle.file_index.specs.Walk.{left_to_walk};

    ghost Value = { List (ℕ × V) };

    ghost view = { λ w. left_to_walk K.eq w.key.now w.files.now w.file w.run.now w.ids.now };
}

impl<'a, K: Ord, V: Rank> RowWalk<'a, K, V> {
    /// A walk over the rows that these files have under a key.
    pub(crate) fn new(files: &'a FileRows<K, V>, ids: &'a [u32], key: &'a K) -> RowWalk<'a, K, V>
        ensures { result ≡ walked K.eq key.now files.now ids.now }
    {
        RowWalk {
            files,
            ids,
            key,
            file: 0,
            run: &[],
        }
    }
}

impl<'a, K: Ord, V: Rank> Iterator for RowWalk<'a, K, V> {
    type Item = (u32, &'a V);

    ghost next_gives = { YieldsFirstBy (λ item. (item.0, item.1.now)) (λ rest. rest) };

    ghost remaining = { item_count (λ rest. rest) };

    fn next(&mut self) -> Option<(u32, &'a V)> {
        while self.run.is_empty() {
            let (id, ids) = self.ids.split_first()?;
            self.ids = ids;
            self.file = *id;
            self.run = self.files.at(*id, self.key);
        }
        let (row, run) = self.run.split_first()?;
        self.run = run;
        Some((self.file, &row.1))
    }
}
