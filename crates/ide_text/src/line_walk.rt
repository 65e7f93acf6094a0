//! Lines and columns of several offsets of a text, found by one walk over it.
ghost use Rattle.std.specs.Prelude.{◌≡◌, ◌+◌, ◌≤◌, length};
ghost use Rattle.ide_text.specs.Text.{max_chars};
ghost use Rattle.ide_text.specs.Place.{line_at, column_at};
ghost use Rattle.ide_text.specs.Walk.{IsAt};

use crate::Text;
use memchr::memchr;
use std::marker::Model;

/// A walk over a text, which counts lines and columns up to an offset. Seen by contracts as the text and the offset.
#[derive(Drop)]
pub struct LineWalk<'a> {
    text: &'a Text,
    at: u32,
    line: u32,
    column: u32,
}

impl<'a> Model for LineWalk<'a> {
    ghost use Rattle.ide_text.specs.Walk.{Walk, walk_of, IsPlaced};

    ghost Value = { Walk };

    ghost view = { walk_of };

    ghost invariant = { IsPlaced };
}

impl<'a> LineWalk<'a> {
    /// The walk at the start of a text.
    pub fn new(text: &'a Text) -> LineWalk<'a>
        ensures { result ≡ record { text = text.now; at = 0 } }
    {
        // A text is short enough for its lines and columns to be counted.
        let _ = text.len();
        LineWalk {
            text,
            at: 0,
            line: 1,
            column: 1,
        }
    }

    /// The line and the column of an offset that isn't before the walk's, both from 1. The walk goes on to it, in the
    /// time of the characters between.
    pub fn line_col(&mut self, at: u32) -> (u32, u32)
        requires ahead { self.old.at ≤ at }
        requires inside { at ≤ length self.old.text }
        ensures line { result.0 ≡ line_at self.old.text at }
        ensures column { result.1 ≡ column_at self.old.text at }
        ensures goes_on { self.new ≡ record { text = self.old.text; at = at } }
    {
        let text = self.text;
        let from = Spot {
            at: self.at,
            line: self.line,
            column: self.column,
        };
        let (line, column) = match text.ascii() {
            Some(ascii) => past_bytes(ascii.as_bytes(), from, at),
            None => past_chars(text, from, at),
        };
        *self = LineWalk {
            text,
            at,
            line,
            column,
        };
        (line, column)
    }
}

/// An offset with its line and its column.
#[derive(Clone, Copy)]
pub(crate) struct Spot {
    at: u32,
    line: u32,
    column: u32,
}

/// The line and the column of an offset behind a spot of an ASCII text, from line feed to line feed.
fn past_bytes(bytes: &[u8], from: Spot, at: u32) -> (u32, u32)
    requires short { length bytes.now ≤ max_chars }
    requires ahead { from.at ≤ at }
    requires inside { at ≤ length bytes.now }
    requires spot { IsAt bytes.now from }
    ensures line { result.0 ≡ line_at bytes.now at }
    ensures column { result.1 ≡ column_at bytes.now at }
    ensures few { (result.0 ≤ at + 1) × (result.1 ≤ at + 1) }
{
    let mut spot = from;
    while let Some(found) = memchr(b'\n', &bytes[spot.at as usize..at as usize]) {
        spot = Spot {
            at: spot.at + found as u32 + 1,
            line: spot.line + 1,
            column: 1,
        };
    }
    (spot.line, spot.column + (at - spot.at))
}

/// The same in any text, character by character.
fn past_chars(text: &Text, from: Spot, at: u32) -> (u32, u32)
    requires ahead { from.at ≤ at }
    requires inside { at ≤ length text.now }
    requires spot { IsAt text.now from }
    ensures line { result.0 ≡ line_at text.now at }
    ensures column { result.1 ≡ column_at text.now at }
    ensures few { (result.0 ≤ at + 1) × (result.1 ≤ at + 1) }
{
    // A text is short enough for its lines and columns to be counted.
    let _ = text.len();
    let mut line = from.line;
    let mut column = from.column;
    for place in from.at..at {
        if text.char_at(place) == '\n' {
            line += 1;
            column = 1;
        } else {
            column += 1;
        }
    }
    (line, column)
}
