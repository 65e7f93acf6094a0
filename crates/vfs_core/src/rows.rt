//! The rows of files by their ids.
ghost use Rattle.std.specs.Prelude.{◌≡◌, ◌≤◌, ◌<◌, ◌+◌, ◌-◌, ℕ, [], OnOk, IfOk, length, ◌==◌, if◌then◌else◌, slice_index_or, slice_set, None};
ghost use Rattle.std.specs.Option.{option_copied};
ghost use Rattle.std.specs.Vec.{vec_capacity};
ghost use Rattle.vfs_core.specs.Row.{row_in, with_row, put_at};
ghost use Rattle.vfs_core.specs.Table.{live_count};

use crate::FileRow;
use std::alloc::{AllocError, Global};
use std::marker::Model;
use std::mem;

/// The row of the id `n` stands at the place `n - 1`.
#[derive(Drop)]
pub(crate) struct Rows {
    alloc: Global,
    rows: Vec<Option<FileRow>>,
    /// How many of them are there.
    live: u32,
}

impl Model for Rows {
    ghost use Rattle.std.specs.Prelude.{◌≡◌, ◌≤◌, length};
    ghost use Rattle.std.specs.Vec.{vec_capacity};
    ghost use Rattle.vfs_core.specs.Table.{Table, live_count};

    ghost Value = { Table };

    ghost view = { λ r. record { rows = r.rows.items; capacity = vec_capacity r.rows } };

    ghost invariant = { λ r. (r.live ≡ live_count r.rows.items) × (length r.rows.items ≤ 4294967295) };
}

impl Rows {
    /// No rows.
    pub(crate) fn new(alloc: Global) -> Rows
        ensures { result.rows ≡ [] }
    {
        Rows {
            alloc,
            rows: Vec::new(alloc),
            live: 0,
        }
    }

    /// How many rows were made.
    pub(crate) fn made(&self) -> usize
        ensures value { result ≡ length self.now.rows }
        ensures few { result ≤ u32.MAX }
    {
        self.rows.len()
    }

    /// How many are those of live files.
    pub(crate) fn live(&self) -> u32
        ensures { result ≡ live_count self.now.rows }
    {
        self.live
    }

    /// The row with an id.
    pub(crate) fn at(&self, id: u32) -> Option<&FileRow>
        ensures { option_copied result ≡ row_in self.now.rows id }
    {
        let place = (id as usize).checked_sub(1)?;
        self.rows.get(place)?.as_ref()
    }

    /// Makes room for so many rows more.
    pub(crate) fn reserve(&mut self, count: usize) -> Result<(), AllocError>
        ensures same { self.new.rows ≡ self.old.rows }
        ensures room { OnOk result (length self.new.rows + count ≤ self.new.capacity) }
        ensures keeps_room { self.old.capacity ≤ self.new.capacity }
    {
        self.rows.reserve(count)
    }

    /// Puts a row, or none, in the place of the one with this id, which it gives back. It takes no memory.
    pub(crate) fn put(&mut self, id: u32, row: Option<FileRow>) -> Option<FileRow>
        requires above { 0 < id }
        requires inside { id ≤ length self.old.rows + 1 }
        requires room { length self.old.rows < id → id ≤ self.old.capacity }
        ensures old { result ≡ row_in self.old.rows id }
        ensures rows { self.new.rows ≡ with_row id row self.old.rows }
        ensures each { (other : ℕ)
            → row_in self.new.rows other
            ≡ (if id == other then row else row_in self.old.rows other) }
        ensures kept { id ≤ length self.old.rows
            → self.new.rows ≡ slice_set self.old.rows (id - 1) row }
        ensures made { id ≤ length self.old.rows → length self.new.rows ≡ length self.old.rows }
        ensures keeps_room { self.old.capacity ≤ self.new.capacity }
    {
        let comes = row.is_some();
        let old = set(&mut self.rows, id as usize - 1, row);
        self.live = self.live - old.is_some() as u32 + comes as u32;
        old
    }

    /// The same rows once more.
    pub(crate) fn copy(&self) -> Result<Rows, AllocError>
        ensures { IfOk result (λ copy. copy.rows ≡ self.now.rows) }
    {
        Ok(Rows {
            alloc: self.alloc,
            rows: copy_rows(self.alloc, &self.rows)?,
            live: self.live,
        })
    }
}

fn copy_rows(alloc: Global, rows: &[Option<FileRow>]) -> Result<Vec<Option<FileRow>>, AllocError>
    ensures { IfOk result (λ copy. copy.items ≡ rows.now) }
{
    let mut copy = Vec::with_capacity(alloc, rows.len())?;
    for row in rows {
        copy.push(copy_row(row)?)?;
    }
    Ok(copy)
}

/// Writes a row at a place, or pushes it behind the last, and gives back what stood there.
fn set(rows: &mut Vec<Option<FileRow>>, place: usize, row: Option<FileRow>) -> Option<FileRow>
    requires inside { place ≤ length rows.old.items }
    requires room { place ≡ length rows.old.items → place < vec_capacity rows.old }
    ensures old { result ≡ slice_index_or rows.old.items place None }
    ensures rows { rows.new.items ≡ put_at place row rows.old.items }
    ensures keeps_room { vec_capacity rows.old ≤ vec_capacity rows.new }
{
    if place < rows.len() {
        return mem::replace(&mut rows[place], row);
    }
    match rows.push(row) {
        Ok(()) => None,
        Err(_) => unreachable!(),
    }
}

fn copy_row(row: &Option<FileRow>) -> Result<Option<FileRow>, AllocError>
    ensures { IfOk result (λ copy. copy ≡ row.now) }
{
    match row {
        Some(row) => Ok(Some(row.copy()?)),
        None => Ok(None),
    }
}
