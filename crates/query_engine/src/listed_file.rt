//! A file whose rows are being made.
ghost use Rattle.std.specs.Prelude.{◌≡◌, ◌≤◌, ◌+◌, ◌++◌, ◌∷◌, [], length, IfOk, IfErr, OnOk, IfSome, IsSome};
ghost use Rattle.write_history.specs.World.{file_of};
ghost use Rattle.query_engine.specs.Reply.{place_row, row_of};
ghost use Rattle.query_engine.specs.Looks.{looks_at, HasLooked, EndsEarly};
ghost use Rattle.query_engine.specs.Listed.{listed_at, IsListed, offset_in};

use crate::answer::{AskRefusal, PlaceRow, Row, RowList};
use crate::looks::add_row;
use action_lock::Watch;
use ide_text::{LineWalk, Name};
use ide_world::{State, path, shown};
use std::alloc::AllocError;
use std::marker::Model;
use stub_tree::Stub;

/// A file whose rows are being made, with one walk over its text for their lines and columns.
#[derive(Drop)]
pub(crate) struct ListedFile<'a> {
    id: u32,
    path: &'a Name,
    walk: LineWalk<'a>,
}

impl<'a> Model for ListedFile<'a> {
    ghost use Rattle.query_engine.specs.Listed.{Listed};

    ghost Value = { Listed };

    ghost view = { λ f. record { id = f.id; path = f.path.now; text = f.walk.text; at = f.walk.at } };
}

impl<'a> ListedFile<'a> {
    /// The live file with an id, no row made yet.
    pub(crate) fn of(state: &'a State, id: u32) -> ListedFile<'a>
        requires { IsSome (file_of state.now.world id) }
        ensures file { result ≡ listed_at state.now.world id 0 }
        ensures listed { IsListed state.now.world result }
    {
        let Some(path) = path(state, id) else {
            unreachable!()
        };
        let Some(text) = shown(state, id) else {
            unreachable!()
        };
        let _ = text.len();
        ListedFile {
            id,
            path,
            walk: LineWalk::new(text),
        }
    }

    /// The live file with an id: the one before, where it has this id.
    pub(crate) fn continued(
        state: &'a State,
        before: Option<ListedFile<'a>>,
        id: u32,
    ) -> ListedFile<'a>
        requires live { IsSome (file_of state.now.world id) }
        requires before { IfSome before (IsListed state.now.world) }
        ensures file { result ≡ listed_at state.now.world id (offset_in before.entry id) }
        ensures listed { IsListed state.now.world result }
    {
        match before {
            Some(file) if file.id == id => file,
            _ => ListedFile::of(state, id),
        }
    }

    /// The row of a place that isn't before those before it.
    pub(crate) fn place(&mut self, at: u32) -> Result<PlaceRow, AllocError>
        requires ahead { self.old.at ≤ at }
        requires inside { at ≤ length self.old.text }
        ensures row { IfOk result
            (λ row. row ≡ place_row self.old.id self.old.path self.old.text at) }
        ensures goes_on { self.new ≡ record self.old { at = at } }
    {
        let (line, column) = self.walk.line_col(at);
        Ok(PlaceRow {
            file: self.id,
            path: self.path.copy()?,
            line,
            column,
        })
    }

    /// The row of a declaration that stands behind those before it.
    pub(crate) fn row(&mut self, stub: &Stub) -> Result<Row, AllocError>
        requires ahead { self.old.at ≤ stub.now.at }
        requires inside { stub.now.at ≤ length self.old.text }
        ensures row { IfOk result
            (λ row. row ≡ row_of self.old.id self.old.path self.old.text stub.now) }
        ensures goes_on { self.new ≡ record self.old { at = stub.now.at } }
    {
        let place = self.place(stub.at)?;
        Ok(Row {
            file: place.file,
            path: place.path,
            line: place.line,
            column: place.column,
            depth: stub.depth,
            kind: stub.kind,
            name: stub.name.copy()?,
            supers: stub.supers.copy()?,
        })
    }

    /// Puts the row of a place at the end, and looks where the rows are a full number of 256 then.
    pub(crate) fn add_place<W: Watch>(
        &mut self,
        at: u32,
        rows: &mut RowList<PlaceRow>,
        watch: &mut W,
    ) -> Result<(), AskRefusal>
        requires can { W.can_look watch.old }
        requires ahead { self.old.at ≤ at }
        requires inside { at ≤ length self.old.text }
        ensures again { W.can_look watch.new }
        ensures stays { W.stays watch.old watch.new }
        ensures added { OnOk result
            (rows.new ≡ rows.old ++ place_row self.old.id self.old.path self.old.text at ∷ []) }
        ensures goes_on { self.new ≡ record self.old { at = at } }
        ensures looked { HasLooked W.looks W.sightings W.stays result
            (looks_at (length rows.old + 1)) watch.old watch.new }
        ensures early { IfErr result EndsEarly }
    {
        let row = self.place(at)?;
        add_row(rows, row, watch)
    }

    /// Puts the row of a declaration at the end, and looks where the rows are a full number of 256 then.
    pub(crate) fn add_stub<W: Watch>(
        &mut self,
        stub: &Stub,
        rows: &mut RowList<Row>,
        watch: &mut W,
    ) -> Result<(), AskRefusal>
        requires can { W.can_look watch.old }
        requires ahead { self.old.at ≤ stub.now.at }
        requires inside { stub.now.at ≤ length self.old.text }
        ensures again { W.can_look watch.new }
        ensures stays { W.stays watch.old watch.new }
        ensures added { OnOk result
            (rows.new ≡ rows.old ++ row_of self.old.id self.old.path self.old.text stub.now ∷ []) }
        ensures goes_on { self.new ≡ record self.old { at = stub.now.at } }
        ensures looked { HasLooked W.looks W.sightings W.stays result
            (looks_at (length rows.old + 1)) watch.old watch.new }
        ensures early { IfErr result EndsEarly }
    {
        let row = self.row(stub)?;
        add_row(rows, row, watch)
    }
}
