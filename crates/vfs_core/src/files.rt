//! The files of a workspace.
ghost use Rattle.std.specs.Prelude.{◌≡◌, ◌≤◌, ◌<◌, ◌-◌, ◌+◌, ℕ, true, false, List, [], ◌∷◌, ◌++◌, Bool, ◌==◌, if◌then◌else◌, IsTrue, IsSome, IfSome, IfOk, OnOk, Some, None, option_map, length, slice_set, bytes_eq};
ghost use Rattle.std.specs.Map.{keys_of};
ghost use Rattle.std.specs.Option.{option_copied};
ghost use Rattle.vfs_core.specs.Row.{IsStamped, has_path, with_row, new_row, rewritten, renamed, indexed_now};
ghost use Rattle.vfs_core.specs.FilesView.{has_name, row_of, id_at, HasRowRoom, HasPathRoom, KeepsRoom, MayHave};
ghost use Rattle.vfs_core.specs.Table.{live_count, id_kept, id_after};

use crate::FileRow;
use crate::paths::Paths;
use crate::rows::Rows;
use ide_text::{Name, SharedText};
use std::alloc::{AllocError, Global};
use std::marker::Model;

/// The files that were ever made, by their ids from 1 on, and the counter of stamps.
#[derive(Drop)]
pub struct Files {
    rows: Rows,
    paths: Paths,
    next_stamp: u64,
}

impl Model for Files {
    ghost use Rattle.vfs_core.specs.FilesView.{FilesView};

    ghost Value = { FilesView };

    ghost use Rattle.vfs_core.specs.Kept.{held, IsKept};

    ghost view = { held };

    ghost invariant = { IsKept };
}

impl Files {
    /// No files. The first stamp is 1.
    pub fn new(alloc: Global) -> Files
        ensures rows { result.rows ≡ [] }
        ensures stamp { result.next_stamp ≡ 1 }
    {
        Files {
            rows: Rows::new(alloc),
            paths: Paths::new(alloc),
            next_stamp: 1,
        }
    }

    /// The id of the live file with a path. Logarithmic in the number of paths.
    pub fn by_path(&self, path: &Name) -> Option<u32>
        ensures first { result ≡ id_at self.now path.now }
        ensures has { IfSome result (λ id. IsTrue (has_path path.now (row_of self.now id))) }
        ensures only { (id : ℕ) → IsTrue (has_path path.now (row_of self.now id))
            → result ≡ Some id }
    {
        self.paths.get(path)
    }

    /// The row of the live file with an id. Constant time.
    pub fn by_id(&self, id: u32) -> Option<&FileRow>
        ensures row { option_copied result ≡ row_of self.now id }
        ensures stamped { IsStamped self.now.next_stamp (row_of self.now id) }
    {
        self.rows.at(id)
    }

    /// How many files were ever made.
    pub fn made(&self) -> usize
        ensures value { result ≡ length self.now.rows }
        ensures few { result ≤ u32.MAX }
    {
        self.rows.made()
    }

    /// How many files are live. Constant time.
    pub fn live(&self) -> u32
        ensures { result ≡ live_count self.now.rows }
    {
        self.rows.live()
    }

    /// The stamp that is drawn next.
    pub fn next_stamp(&self) -> u64
        ensures { result ≡ self.now.next_stamp }
    {
        self.next_stamp
    }

    /// Makes room for one row more.
    pub fn reserve(&mut self) -> Result<(), AllocError>
        ensures rows { self.new.rows ≡ self.old.rows }
        ensures stamp { self.new.next_stamp ≡ self.old.next_stamp }
        ensures room { OnOk result (HasRowRoom self.new 1) }
        ensures keeps_room { KeepsRoom self.old self.new }
    {
        self.reserve_rows(1)
    }

    /// Makes room for so many rows more.
    pub fn reserve_rows(&mut self, count: usize) -> Result<(), AllocError>
        ensures rows { self.new.rows ≡ self.old.rows }
        ensures stamp { self.new.next_stamp ≡ self.old.next_stamp }
        ensures room { OnOk result (HasRowRoom self.new count) }
        ensures keeps_room { KeepsRoom self.old self.new }
    {
        self.rows.reserve(count)
    }

    /// Makes a place for the id of a path.
    pub fn reserve_path(&mut self, path: &Name) -> Result<(), AllocError>
        ensures rows { self.new.rows ≡ self.old.rows }
        ensures stamp { self.new.next_stamp ≡ self.old.next_stamp }
        ensures room { OnOk result (HasPathRoom self.new path.now) }
        ensures keeps_room { KeepsRoom self.old self.new }
    {
        self.paths.reserve(path)
    }

    /// Gives up the place of a path that no live file has.
    pub fn sweep(&mut self, path: &Name)
        ensures rows { self.new.rows ≡ self.old.rows }
        ensures stamp { self.new.next_stamp ≡ self.old.next_stamp }
        ensures gone { id_at self.old path.now ≡ None → HasPathRoom self.new path.now → ⊥ }
        ensures keeps_rows { self.old.capacity ≤ self.new.capacity }
        ensures keeps_paths { (other : List ℕ) → bytes_eq path.now other ≡ false
            → HasPathRoom self.old other → HasPathRoom self.new other }
    {
        self.paths.sweep(path);
    }

    /// Draws a stamp.
    pub fn draw(&mut self) -> u64
        requires { self.old.next_stamp < u64.MAX }
        ensures value { result ≡ self.old.next_stamp }
        ensures stamp { self.new.next_stamp ≡ self.old.next_stamp + 1 }
        ensures rows { self.new.rows ≡ self.old.rows }
        ensures keeps_room { KeepsRoom self.old self.new }
    {
        let stamp = self.next_stamp;
        self.next_stamp += 1;
        stamp
    }

    /// Puts a row, or none, in the place of the one with this id, or behind the last. It takes no memory. Where the path
    /// stays, it takes constant time but for the comparison of the paths. It gives the row that went.
    pub fn put(&mut self, id: u32, row: Option<FileRow>) -> Option<FileRow>
        requires above { 0 < id }
        requires inside { id ≤ length self.old.rows + 1 }
        requires room { length self.old.rows < id → HasRowRoom self.old 1 }
        requires path { IfSome row (λ r. MayHave self.old id r.path) }
        requires stamped { IfSome row (λ r. IsStamped self.old.next_stamp (Some r)) }
        ensures old { result ≡ row_of self.old id }
        ensures rows { self.new.rows ≡ with_row id row self.old.rows }
        ensures each { (other : ℕ)
            → row_of self.new other ≡ (if id == other then row else row_of self.old other) }
        ensures stamp { self.new.next_stamp ≡ self.old.next_stamp }
        ensures keeps_room { KeepsRoom self.old self.new }
    {
        let old = self.rows.put(id, row);
        follow(&mut self.paths, id, old.as_ref(), self.rows.at(id));
        old
    }

    /// Makes a file, and gives its id. It takes no memory.
    pub fn create(&mut self, path: Name, content: SharedText) -> u32
        requires few { length self.old.rows < u32.MAX }
        requires room { HasRowRoom self.old 1 }
        requires place { HasPathRoom self.old path }
        requires free { id_at self.old path ≡ None }
        requires stamps { self.old.next_stamp < u64.MAX }
        ensures id { result ≡ length self.old.rows + 1 }
        ensures rows { self.new.rows ≡ self.old.rows
            ++ Some (new_row path content self.old.next_stamp) ∷ [] }
        ensures each { (other : ℕ)
            → row_of self.new other
            ≡ (if result == other then Some (new_row path content self.old.next_stamp)
            else row_of self.old other) }
        ensures stamp { self.new.next_stamp ≡ self.old.next_stamp + 1 }
        ensures keeps_room { KeepsRoom self.old self.new }
    {
        let id = self.made() as u32 + 1;
        let stamp = self.draw();
        let row = FileRow {
            path,
            content,
            stamp,
            indexed: None,
        };
        drop(self.put(id, Some(row)));
        id
    }

    /// Gives a live file other content. It takes no memory and constant time.
    pub fn write(&mut self, id: u32, content: SharedText)
        requires live { IsSome (row_of self.old id) }
        requires stamps { self.old.next_stamp < u64.MAX }
        ensures rows { self.new.rows
            ≡ slice_set self.old.rows (id - 1)
            (option_map (rewritten content self.old.next_stamp) (row_of self.old id)) }
        ensures each { (other : ℕ)
            → row_of self.new other
            ≡ (if id == other
            then option_map (rewritten content self.old.next_stamp) (row_of self.old id)
            else row_of self.old other) }
        ensures stamp { self.new.next_stamp ≡ self.old.next_stamp + 1 }
        ensures keeps_room { KeepsRoom self.old self.new }
    {
        let drawn = self.draw();
        if let Some(row) = self.rows.put(id, None) {
            self.rows.put(
                id,
                Some(FileRow {
                    content,
                    stamp: drawn,
                    ..row
                }),
            );
        }
    }

    /// Takes a live file out. Its id isn't given again. It takes no memory.
    pub fn remove(&mut self, id: u32)
        requires live { IsSome (row_of self.old id) }
        ensures rows { self.new.rows ≡ slice_set self.old.rows (id - 1) None }
        ensures each { (other : ℕ)
            → row_of self.new other ≡ (if id == other then None else row_of self.old other) }
        ensures stamp { self.new.next_stamp ≡ self.old.next_stamp }
        ensures keeps_room { KeepsRoom self.old self.new }
    {
        drop(self.put(id, None));
    }

    /// Lets a live file count as indexed at its stamp. It takes no memory and constant time.
    pub fn set_indexed(&mut self, id: u32)
        requires live { IsSome (row_of self.old id) }
        ensures rows { self.new.rows
            ≡ slice_set self.old.rows (id - 1) (option_map indexed_now (row_of self.old id)) }
        ensures each { (other : ℕ)
            → row_of self.new other
            ≡ (if id == other then option_map indexed_now (row_of self.old id)
            else row_of self.old other) }
        ensures stamp { self.new.next_stamp ≡ self.old.next_stamp }
        ensures keeps_room { KeepsRoom self.old self.new }
    {
        if let Some(row) = self.rows.put(id, None) {
            let indexed = Some(row.stamp);
            drop(self.rows.put(id, Some(FileRow { indexed, ..row })));
        }
    }

    /// Gives a live file another path. It takes no memory.
    pub fn rename(&mut self, id: u32, to: Name)
        requires live { IsSome (row_of self.old id) }
        requires place { HasPathRoom self.old to }
        requires free { id_at self.old to ≡ None }
        requires stamps { self.old.next_stamp < u64.MAX }
        ensures rows { self.new.rows
            ≡ slice_set self.old.rows (id - 1)
            (option_map (renamed to self.old.next_stamp) (row_of self.old id)) }
        ensures each { (other : ℕ)
            → row_of self.new other
            ≡ (if id == other
            then option_map (renamed to self.old.next_stamp) (row_of self.old id)
            else row_of self.old other) }
        ensures stamp { self.new.next_stamp ≡ self.old.next_stamp + 1 }
        ensures keeps_room { KeepsRoom self.old self.new }
    {
        let stamp = self.draw();
        let Some(row) = self.rows.put(id, None) else {
            unreachable!()
        };
        self.paths.set(&row.path, None);
        self.paths.set(&to, Some(id));
        self.rows.put(
            id,
            Some(FileRow {
                path: to,
                stamp,
                ..row
            }),
        );
    }

    /// The same files once more.
    pub fn copy(&self) -> Result<Files, AllocError>
        ensures rows { IfOk result (λ copy. copy.rows ≡ self.now.rows) }
        ensures stamp { IfOk result (λ copy. copy.next_stamp ≡ self.now.next_stamp) }
    {
        Ok(Files {
            rows: self.rows.copy()?,
            paths: self.paths.copy()?,
            next_stamp: self.next_stamp,
        })
    }
}

/// Lets the ids of paths follow a row that took the place of another.
fn follow(paths: &mut Paths, id: u32, gone: Option<&FileRow>, come: Option<&FileRow>)
    requires kept { (path : List ℕ) → IsTrue (has_path path (option_copied gone))
        → id_kept path paths.old ≡ Some id }
    requires place { IfSome come
        (λ row. has_path row.now.path (option_copied gone) ≡ false
        → IsTrue (has_name (keys_of paths.old) row.now.path)) }
    ensures ids { (path : List ℕ)
        → id_kept path paths.new
        ≡ id_after id (option_copied gone.entry) (option_copied come.entry) path
        (id_kept path paths.old) }
    ensures keeps_room { (path : List ℕ) → IsTrue (has_name (keys_of paths.old) path)
        → IsTrue (has_name (keys_of paths.new) path) }
{
    if let (Some(gone), Some(come)) = (gone, come)
        && gone.path == come.path
    {
        return;
    }
    if let Some(row) = gone {
        paths.set(&row.path, None);
    }
    if let Some(row) = come {
        paths.set(&row.path, Some(id));
    }
}
