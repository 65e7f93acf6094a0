//! Walks over what a key finds.
ghost use Rattle.std.specs.Prelude.{◌≡◌};
ghost use Rattle.std.specs.Iterator.{YieldsFirstBy, item_count};

use file_index::RowWalk;
use ide_text::Name;
use std::marker::Model;
use stub_index::SharedStub;
use stub_tree::Stub;

/// The stubs that a name finds, each with its file, seen as those that are left.
#[derive(Drop)]
pub struct StubWalk<'a> {
    rows: RowWalk<'a, Name, SharedStub>,
}

impl<'a> Model for StubWalk<'a> {
    ghost use Rattle.std.specs.Prelude.{List, ℕ};
    ghost use Rattle.stub_tree.specs.declared.stub.Stub.{Stub};

    ghost Value = { List (ℕ × Stub) };

    ghost view = { λ w. w.rows };
}

impl<'a> StubWalk<'a> {
    /// A walk over these rows.
    pub(crate) fn of(rows: RowWalk<'a, Name, SharedStub>) -> StubWalk<'a>
        ensures { result ≡ rows.entry }
    {
        StubWalk { rows }
    }
}

impl<'a> Iterator for StubWalk<'a> {
    type Item = (u32, &'a Stub);

    ghost next_gives = { YieldsFirstBy (λ item. (item.0, item.1.now)) (λ rest. rest) };

    ghost remaining = { item_count (λ rest. rest) };

    fn next(&mut self) -> Option<(u32, &'a Stub)> {
        let (file, stub) = self.rows.next()?;
        Some((file, stub.as_stub()))
    }
}

/// The files that have a word, each with the word's mask in it, seen as those that are left.
#[derive(Drop)]
pub struct WordWalk<'a> {
    rows: RowWalk<'a, Name, u8>,
}

impl<'a> Model for WordWalk<'a> {
    ghost use Rattle.std.specs.Prelude.{List, ℕ};

    ghost Value = { List (ℕ × ℕ) };

    ghost view = { λ w. w.rows };
}

impl<'a> WordWalk<'a> {
    /// A walk over these rows.
    pub(crate) fn of(rows: RowWalk<'a, Name, u8>) -> WordWalk<'a>
        ensures { result ≡ rows.entry }
    {
        WordWalk { rows }
    }
}

impl<'a> Iterator for WordWalk<'a> {
    type Item = (u32, u8);

    ghost next_gives = { YieldsFirstBy (λ item. item) (λ rest. rest) };

    ghost remaining = { item_count (λ rest. rest) };

    fn next(&mut self) -> Option<(u32, u8)> {
        let (file, mask) = self.rows.next()?;
        Some((file, *mask))
    }
}

/// The offsets at which a property key stands, each with its file, seen as those that are left.
#[derive(Drop)]
pub struct KeyWalk<'a> {
    rows: RowWalk<'a, Name, u32>,
}

impl<'a> Model for KeyWalk<'a> {
    ghost use Rattle.std.specs.Prelude.{List, ℕ};

    ghost Value = { List (ℕ × ℕ) };

    ghost view = { λ w. w.rows };
}

impl<'a> KeyWalk<'a> {
    /// A walk over these rows.
    pub(crate) fn of(rows: RowWalk<'a, Name, u32>) -> KeyWalk<'a>
        ensures { result ≡ rows.entry }
    {
        KeyWalk { rows }
    }
}

impl<'a> Iterator for KeyWalk<'a> {
    type Item = (u32, u32);

    ghost next_gives = { YieldsFirstBy (λ item. item) (λ rest. rest) };

    ghost remaining = { item_count (λ rest. rest) };

    fn next(&mut self) -> Option<(u32, u32)> {
        let (file, at) = self.rows.next()?;
        Some((file, *at))
    }
}
