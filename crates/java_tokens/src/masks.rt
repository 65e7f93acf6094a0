//! Words and their masks, while they are gathered.
ghost use Rattle.std.specs.Prelude.{◌≡◌, ◌-◌, ◌≤◌, OnOk, IfOk, length, take, drop, []};
ghost use Rattle.std.specs.List.{IsDistinct};
ghost use Rattle.std.specs.Map.{keys_of};
ghost use Rattle.std.specs.Str.{bytes_eq};
ghost use Rattle.indexmap.specs.IndexMap.{IsUnique};
ghost use Rattle.java_tokens.specs.Words.{bit_of, in_order_of, with_occurrence};

use crate::context::Context;
use crate::fronted::Fronted;
use crate::piece::Piece;
use ide_text::{Name, Spelt};
use indexmap::IndexMap;
use std::alloc::{AllocError, Global};
use std::marker::Model;

/// Words with the union of the bits of the places where each stands, found by hash. Seen as the list of them in
/// order, as they will be given out.
#[derive(Drop)]
pub(crate) struct Masks {
    rows: IndexMap<Name, u8>,
    alloc: Global,
}

impl Model for Masks {
    ghost use Rattle.std.specs.Prelude.{List, ℕ};
    ghost use Rattle.std.specs.Str.{bytes_eq};
    ghost use Rattle.indexmap.specs.IndexMap.{IsUnique};
    ghost use Rattle.java_tokens.specs.Words.{WordRow, in_order_of};

    ghost Value = { List WordRow };

    ghost view = { λ m. in_order_of m.rows.entries };

    ghost invariant = { λ m. IsUnique bytes_eq m.rows };
}

impl Masks {
    /// No words, with room for so many.
    pub(crate) fn with_room(alloc: Global, count: usize) -> Result<Masks, AllocError>
        ensures { IfOk result (λ masks. masks ≡ []) }
    {
        Ok(Masks {
            rows: IndexMap::with_capacity(alloc, count)?,
            alloc,
        })
    }

    /// Adds one occurrence: the characters of a piece from one place up to another. They are looked up as they lie in the text,
    /// where it is kept as ASCII.
    pub(crate) fn add(
        &mut self,
        piece: &Piece,
        from: u32,
        to: u32,
        place: Context,
    ) -> Result<(), AllocError>
        requires ordered { from ≤ to }
        requires inside { to ≤ length piece.now }
        ensures { OnOk result
            (self.new
            ≡ with_occurrence self.old (take (to - from) (drop from piece.now), bit_of place)) }
    {
        match piece.spelt(from, to) {
            Some(word) => add_spelt(&mut self.rows, self.alloc, &word, place),
            None => add_name(&mut self.rows, piece.name(self.alloc, from, to)?, place),
        }
    }

    /// The words in order, each with its mask.
    pub(crate) fn into_rows(self) -> Result<Vec<(Name, u8)>, AllocError>
        ensures { IfOk result (λ rows. rows.items ≡ self) }
    {
        let mut rows = all_rows(self.alloc, self.rows)?;
        put_in_order(&mut rows);
        plain_rows(self.alloc, rows)
    }
}

/// Adds one occurrence of a word, which is looked up by its letters. A name is made for a new word alone.
fn add_spelt(
    rows: &mut IndexMap<Name, u8>,
    alloc: Global,
    word: &Spelt,
    place: Context,
) -> Result<(), AllocError>
    ensures words { OnOk result
        (in_order_of rows.new.entries
        ≡ with_occurrence (in_order_of rows.old.entries) (word.now, bit_of place)) }
    ensures unique { IsUnique bytes_eq rows.new }
{
    if let Some(mask) = rows.get_mut(word) {
        *mask |= place.bit();
        return Ok(());
    }
    rows.insert(word.name(alloc)?, place.bit())?;
    Ok(())
}

/// Adds one occurrence of a name, which is hashed and looked up once.
fn add_name(rows: &mut IndexMap<Name, u8>, name: Name, place: Context) -> Result<(), AllocError>
    ensures words { OnOk result
        (in_order_of rows.new.entries
        ≡ with_occurrence (in_order_of rows.old.entries) (name, bit_of place)) }
    ensures unique { IsUnique bytes_eq rows.new }
{
    *rows.entry(name)?.or_insert(0) |= place.bit();
    Ok(())
}

/// The rows of a map, in its order.
fn all_rows(alloc: Global, map: IndexMap<Name, u8>) -> Result<Vec<Fronted>, AllocError>
    ensures { IfOk result (λ rows. rows.items ≡ map.entries) }
{
    let mut rows = Vec::with_capacity(alloc, map.len())?;
    for row in map {
        rows.push(Fronted::of(row))?;
    }
    Ok(rows)
}

/// Puts rows, each with a name of its own, in the order of their names.
fn put_in_order(rows: &mut Vec<Fronted>)
    requires { IsDistinct bytes_eq (keys_of rows.old.items) }
    ensures { rows.new.items ≡ in_order_of rows.old.items }
{
    rows.sort_unstable_by(|a, b| a.order(b));
}

/// The rows without their fronts.
fn plain_rows(alloc: Global, fronted: Vec<Fronted>) -> Result<Vec<(Name, u8)>, AllocError>
    ensures { IfOk result (λ rows. rows.items ≡ fronted.items) }
{
    let mut rows = Vec::with_capacity(alloc, fronted.len())?;
    for row in fronted {
        rows.push(row.into_row())?;
    }
    Ok(rows)
}
