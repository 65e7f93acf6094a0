//! A home value for the tests: a list of notes under an `Arc`, whose shares are refused at chosen calls.
ghost use Rattle.std.specs.Prelude.{◌≡◌, ◌∷◌, ◌++◌, [], IfOk, OnOk, OnErr};
ghost use Rattle.std.specs.Arc.{arc_value};
ghost use Rattle.std.proofs.Common.{sym, ◌∙◌};

use crate::clock::strikes;
use crate::writes::Adds;
use action_lock::Home;
use std::alloc::{AllocError, Global};
use std::sync::Arc;
use std::sync::atomic::{AtomicU64, Ordering};

/// One entry of a board.
#[derive(Clone, Copy, PartialEq, Eq)]
pub struct Note {
    pub number: u32,
    pub text: u64,
}

/// A value under the lock: all notes so far, which its shares own too, and the calls of `share` that are refused: so many from
/// this one on, the first call being number 0.
#[derive(Drop)]
pub struct Board {
    pub notes: Arc<Vec<Note>>,
    calls: AtomicU64,
    refused_from: u64,
    refused: u64,
}

impl Board {
    /// A board without notes, whose calls from this one on are refused, so many of them.
    pub fn empty(alloc: Global, refused_from: u64, refused: u64) -> Result<Board, AllocError>
        ensures { IfOk result (λ board. (arc_value board.notes).items ≡ []) }
    {
        let notes = Vec::new(alloc);
        Ok(Board {
            notes: Arc::new(alloc, notes)?,
            calls: AtomicU64::new(0),
            refused_from,
            refused,
        })
    }

    /// Adds a note, on a copy, so that shares that are out stay as they are.
    fn add(&mut self, alloc: Global, note: Note) -> Result<(), AllocError>
        ensures ok { OnOk result
            ((arc_value self.new.notes).items ≡ (arc_value self.old.notes).items ++ note ∷ []) }
        ensures err { OnErr result
            ((arc_value self.new.notes).items ≡ (arc_value self.old.notes).items) }
    {
        let mut notes = copied(alloc, &self.notes)?;
        notes.push(note)?;
        self.notes = Arc::new(alloc, notes)?;
        Ok(())
    }
}

impl Home for Board {
    type Entry = Note;

    type Share = Arc<Vec<Note>>;

    ghost number_of = { λ note. note.number };

    ghost stands = { λ board notes. (arc_value board.notes).items ≡ notes };

    ghost share_stands = { λ share notes. (arc_value share).items ≡ notes };

    ghost one_list = { λ board xs ys p q. sym p ∙ q };

    fn share(&self, _alloc: Global) -> Result<Arc<Vec<Note>>, AllocError> {
        let call = self.calls.fetch_add(1, Ordering::SeqCst);
        if call >= self.refused_from && call - self.refused_from < self.refused {
            return Err(AllocError);
        }
        Arc::try_clone(&self.notes)
    }

    fn again(_alloc: Global, share: &Arc<Vec<Note>>) -> Result<Arc<Vec<Note>>, AllocError> {
        Arc::try_clone(share)
    }
}

fn copied(alloc: Global, notes: &[Note]) -> Result<Vec<Note>, AllocError>
    ensures { IfOk result (λ copy. copy.items ≡ notes.now) }
{
    let mut copy = Vec::new(alloc);
    for &note in notes {
        copy.push(note)?;
    }
    Ok(copy)
}

/// Adds a note of this text to a board, or none where it has no text. The clock beats once the write goes on, which waits for
/// so many beats.
#[derive(Drop)]
pub struct Append<'a> {
    pub alloc: Global,
    pub text: Option<u64>,
    pub clock: &'a AtomicU64,
    pub until: u64,
}

impl<'a> Adds<Board> for Append<'a> {
    fn make(&self, home: &mut Board, number: u32) -> Result<(), AllocError> {
        self.clock.fetch_add(1, Ordering::SeqCst);
        let in_time = strikes(self.clock, self.until);
        match self.text {
            Some(text) if in_time => home.add(self.alloc, Note { number, text }),
            _ => Err(AllocError),
        }
    }
}
