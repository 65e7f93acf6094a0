//! A list of characters in one buffer with a gap, at which characters go in and out.
ghost use Rattle.std.specs.Prelude.{◌≡◌, ◌≤◌, ◌<◌, ◌+◌, ◌-◌, ◌^◌, [], ◌++◌, IfOk, OnOk, Some, bytes_eq, length, slice_get, take, drop};
ghost use Rattle.document_buf.specs.Gap.{joined_of};

use ide_text::Text;
use std::alloc::{AllocError, Global};
use std::marker::Model;

/// Characters before a gap and after it. What stands in the gap is free.
#[derive(Drop)]
pub(crate) struct GapBuffer {
    chars: Vec<char>,
    start: usize,
    end: usize,
}

impl Model for GapBuffer {
    ghost use Rattle.document_buf.specs.Gap.{Gapped, gapped_of, IsGap};

    ghost Value = { Gapped };

    ghost view = { gapped_of };

    ghost invariant = { IsGap };
}

impl GapBuffer {
    /// No characters, and a gap of this width.
    pub(crate) fn with_room(alloc: Global, room: usize) -> Result<GapBuffer, AllocError>
        ensures { IfOk result (λ made. made ≡ record { front = []; back = []; spare = room }) }
    {
        Ok(GapBuffer {
            chars: vec![in alloc; '\0'; room]?,
            start: 0,
            end: room,
        })
    }

    /// The number of characters.
    pub(crate) fn len(&self) -> usize
        ensures { result ≡ length (joined_of self.now) }
    {
        self.start + (self.chars.len() - self.end)
    }

    /// How wide the gap is.
    pub(crate) fn spare(&self) -> usize
        ensures { result ≡ self.now.spare }
    {
        self.end - self.start
    }

    /// The character at a place.
    pub(crate) fn char_at(&self, at: usize) -> char
        requires { at < length (joined_of self.now) }
        ensures { slice_get (joined_of self.now) at ≡ Some result }
    {
        if at < self.start {
            self.chars[at]
        } else {
            self.chars[self.end + (at - self.start)]
        }
    }

    /// Whether a text has the same characters. Lengths are compared first.
    pub(crate) fn is_text(&self, text: &Text) -> bool
        ensures { result ≡ bytes_eq (joined_of self.now) text.now }
    {
        if self.len() != text.len() as usize {
            return false;
        }
        for at in 0..text.len() {
            if self.char_at(at as usize) != text.char_at(at) {
                return false;
            }
        }
        true
    }

    /// The characters before the gap.
    pub(crate) fn front(&self) -> &[char]
        ensures { result.now ≡ self.now.front }
    {
        &self.chars[..self.start]
    }

    /// The characters after the gap.
    pub(crate) fn back(&self) -> &[char]
        ensures { result.now ≡ self.now.back }
    {
        &self.chars[self.end..]
    }

    /// What gave the buffer its memory.
    pub(crate) fn alloc(&self) -> Global {
        *self.chars.allocator()
    }

    /// Puts the gap before a character. Linear in the distance.
    pub(crate) fn move_to(&mut self, at: usize)
        requires { at ≤ length (joined_of self.old) }
        ensures front { self.new.front ≡ take at (joined_of self.old) }
        ensures back { self.new.back ≡ drop at (joined_of self.old) }
        ensures spare { self.new.spare ≡ self.old.spare }
    {
        let start = self.start;
        if at < start {
            self.move_back(at);
        } else {
            self.move_on(at - start);
        }
    }

    /// Moves the gap back to a place before it.
    fn move_back(&mut self, at: usize)
        requires { at ≤ length self.old.front }
        ensures front { self.new.front ≡ take at self.old.front }
        ensures back { self.new.back ≡ drop at self.old.front ++ self.old.back }
        ensures spare { self.new.spare ≡ self.old.spare }
    {
        let dest = at + (self.end - self.start);
        self.chars.copy_within(at..self.start, dest);
        self.start = at;
        self.end = dest;
    }

    /// Moves the gap on by a number of characters.
    fn move_on(&mut self, by: usize)
        requires { by ≤ length self.old.back }
        ensures front { self.new.front ≡ self.old.front ++ take by self.old.back }
        ensures back { self.new.back ≡ drop by self.old.back }
        ensures spare { self.new.spare ≡ self.old.spare }
    {
        self.chars.copy_within(self.end..self.end + by, self.start);
        self.start += by;
        self.end += by;
    }

    /// Puts a text in right before the gap, which becomes smaller by it.
    pub(crate) fn push(&mut self, piece: &Text)
        requires { length piece.now ≤ self.old.spare }
        ensures front { self.new.front ≡ self.old.front ++ piece.now }
        ensures back { self.new.back ≡ self.old.back }
        ensures spare { self.new.spare + length piece.now ≡ self.old.spare }
    {
        let start = self.start;
        for at in 0..piece.len() {
            self.chars[start + at as usize] = piece.char_at(at);
        }
        self.start = start + piece.len() as usize;
    }

    /// Lets the gap take in a number of the characters right behind it.
    pub(crate) fn erase(&mut self, count: usize)
        requires { count ≤ length self.old.back }
        ensures front { self.new.front ≡ self.old.front }
        ensures back { self.new.back ≡ drop count self.old.back }
        ensures spare { self.new.spare ≡ self.old.spare + count }
    {
        self.end += count;
    }

    /// The same characters with a gap of another width, in memory for just as many. Linear in them.
    pub(crate) fn with_spare(&self, spare: usize) -> Result<GapBuffer, AllocError>
        requires { length (joined_of self.now) + spare < 2 ^ 33 }
        ensures { IfOk result
            (λ made. made
            ≡ record { front = self.now.front; back = self.now.back; spare = spare }) }
    {
        let mut chars = Vec::with_capacity(self.alloc(), self.len() + spare)?;
        chars.extend_from_slice(self.front())?;
        for _ in 0..spare {
            chars.push('\0')?;
        }
        let end = chars.len();
        chars.extend_from_slice(self.back())?;
        Ok(GapBuffer {
            chars,
            start: self.start,
            end,
        })
    }
}
