//! A text: a list of at most `MAX_CHARS` characters, with `\n` as its only line break.
ghost use Rattle.std.specs.Prelude.{◌≡◌, ◌≤◌, ◌<◌, ◌+◌, ◌-◌, ◌++◌, IfSome, IfOk, IfErr, OnOk, OnErr, bytes_eq, length, slice_get, take, drop, Some, ◌==◌, encode_utf8_all};
ghost use Rattle.std.specs.Str.{chars};
ghost use Rattle.std.specs.String.{string_bytes};
ghost use Rattle.ide_text.specs.Chars.{chars_of, IsKept};
ghost use Rattle.ide_text.specs.Text.{IsText, max_chars, repaired};
ghost use Rattle.ide_text.specs.Spelling.{bytes_of};
ghost use Rattle.ide_text.specs.Place.{line_at, column_at};

use crate::chars::{Chars, joined, repaired};
use crate::spelling::Spelling;
use crate::{LineWalk, Spelt};
use std::alloc::{AllocError, Global};
use std::marker::Model;
use thiserror::Error;

/// The most characters that a text may have.
pub const MAX_CHARS: usize = 1_048_576;

/// Why bytes are no text.
#[derive(Clone, Copy, Debug, PartialEq, Eq, Error)]
pub enum TextRefusal {
    /// The bytes aren't UTF-8; `at` is the length of their longest front that is.
    #[error("no UTF-8 from byte {at} on")]
    NotText { at: usize },
    /// There are `count` characters, line breaks repaired: more than `MAX_CHARS`.
    #[error("{count} characters are too many for a text")]
    TooLong { count: usize },
    /// Memory ran out.
    #[error("out of memory")]
    OutOfMemory,
}

/// A list of Unicode scalar values, seen by contracts as their codes. Offsets count characters from 0.
#[derive(Drop)]
pub struct Text {
    chars: Chars,
}

impl Model for Text {
    ghost use Rattle.std.specs.Prelude.{List, ℕ};
    ghost use Rattle.ide_text.specs.Chars.{chars_of, IsKept};
    ghost use Rattle.ide_text.specs.Text.{IsText};

    ghost Value = { List ℕ };

    ghost view = { λ t. chars_of t.chars };

    ghost invariant = { λ t. IsText (chars_of t.chars) × IsKept t.chars };
}

impl Text {
    ghost use Rattle.std.specs.Prelude.{false, Err};
    ghost use Rattle.std.specs.Str.{is_utf8};
    ghost use Rattle.std.specs.Str.Lossy.{utf8_valid_len};
    ghost use Rattle.ide_text.specs.declared.text.TextRefusal.TheVariants.{NotText};
    ghost use Rattle.ide_text.specs.Text.{text_of, IsRefusalOf};

    /// The text that the bytes spell in UTF-8 (Unicode, chapter 3). CR LF and a lone CR become `\n`.
    /// Linear in the bytes.
    pub fn from_utf8(alloc: Global, bytes: &[u8]) -> Result<Text, TextRefusal>
        ensures ok { IfOk result (λ text. text_of bytes.now ≡ Ok text) }
        ensures err { IfErr result (λ refusal. IsRefusalOf (text_of bytes.now) refusal) }
        ensures no_utf8 { is_utf8 bytes.now ≡ false
            → result ≡ Err (NotText (utf8_valid_len bytes.now)) }
    {
        let text = match std::str::from_utf8(bytes) {
            Ok(text) => text,
            Err(e) => {
                return Err(TextRefusal::NotText {
                    at: e.valid_up_to(),
                });
            }
        };
        match String::from_str(alloc, text) {
            Ok(text) => Text::from_string(alloc, text),
            Err(_) => Err(TextRefusal::OutOfMemory),
        }
    }

    /// The same of a string, whose memory the text takes over where all characters are ASCII and no line break has
    /// to be repaired.
    pub fn from_string(alloc: Global, text: String) -> Result<Text, TextRefusal>
        ensures ok { IfOk result (λ made. text_of (string_bytes text) ≡ Ok made) }
        ensures err { IfErr result (λ refusal. IsRefusalOf (text_of (string_bytes text)) refusal) }
    {
        match chars_of_repaired(alloc, text) {
            Ok(chars) if chars.len() > MAX_CHARS => Err(TextRefusal::TooLong {
                count: chars.len(),
            }),
            Ok(chars) => Ok(Text { chars }),
            Err(_) => Err(TextRefusal::OutOfMemory),
        }
    }

    /// The number of characters.
    pub fn len(&self) -> u32
        ensures len { result ≡ length self.now }
        ensures text { IsText self.now }
    {
        self.chars.len() as u32
    }

    /// Whether there is no character.
    pub fn is_empty(&self) -> bool
        ensures { result ≡ (length self.now == 0) }
    {
        self.chars.len() == 0
    }

    /// The character at an offset. Constant time.
    pub fn char_at(&self, at: u32) -> char
        requires { at < length self.now }
        ensures { slice_get self.now at ≡ Some result }
    {
        self.chars.char_at(at as usize)
    }

    /// The text as a string, where its characters are kept as ASCII. Constant time.
    pub fn ascii(&self) -> Option<&str>
        ensures { IfSome result (λ ascii. ascii.now ≡ self.now) }
    {
        self.chars.ascii()
    }

    /// The line and the column of an offset, both from 1. Linear in the offset.
    pub fn line_col(&self, at: u32) -> (u32, u32)
        requires { at ≤ length self.now }
        ensures line { result.0 ≡ line_at self.now at }
        ensures column { result.1 ≡ column_at self.now at }
    {
        LineWalk::new(self).line_col(at)
    }

    /// How the characters from one offset up to another are spelt.
    pub(crate) fn spelling(&self, alloc: Global, from: u32, to: u32) -> Result<Spelling, AllocError>
        requires ordered { from ≤ to }
        requires inside { to ≤ length self.now }
        ensures { IfOk result
            (λ made. chars (bytes_of made) ≡ take (to - from) (drop from self.now)) }
    {
        self.chars.spelling(alloc, from as usize, to as usize)
    }

    /// The characters from one offset up to another, to look a name up by, where they are kept as ASCII. Constant time.
    pub fn spelt(&self, from: u32, to: u32) -> Option<Spelt<'_>>
        requires ordered { from ≤ to }
        requires inside { to ≤ length self.now }
        ensures { IfSome result (λ spelt. spelt ≡ take (to - from) (drop from self.now)) }
    {
        let letters = self.chars.letters(from as usize, to as usize)?;
        Some(Spelt::of(letters))
    }

    /// Puts the characters of another text in before an offset. Linear in both texts; without memory nothing changes.
    pub fn insert(&mut self, at: u32, piece: &Text) -> Result<(), AllocError>
        requires inside { at ≤ length self.old }
        requires fits { length self.old + length piece.now ≤ max_chars }
        ensures ok { OnOk result (self.new ≡ take at self.old ++ piece.now ++ drop at self.old) }
        ensures err { OnErr result (self.new ≡ self.old) }
    {
        let _ = piece.len();
        self.chars = self.chars.with_piece(at as usize, &piece.chars)?;
        Ok(())
    }

    /// Takes the characters from one offset up to another out. It takes no memory, and is linear in the text.
    pub fn erase(&mut self, from: u32, to: u32)
        requires ordered { from ≤ to }
        requires inside { to ≤ length self.old }
        ensures { self.new ≡ take from self.old ++ drop to self.old }
    {
        self.chars.erase(from as usize, to as usize);
    }

    /// The text of two lists of characters, one after the other.
    pub fn joined(alloc: Global, front: &[char], back: &[char]) -> Result<Text, AllocError>
        requires { IsText (front.now ++ back.now) }
        ensures { IfOk result (λ text. text ≡ front.now ++ back.now) }
    {
        Ok(Text {
            chars: joined(alloc, front, back)?,
        })
    }

    /// Whether the other text has the same characters. Lengths are compared first.
    pub fn is_same(&self, other: &Text) -> bool
        ensures { result ≡ bytes_eq self.now other.now }
    {
        if self.len() != other.len() {
            return false;
        }
        for at in 0..self.len() {
            if self.char_at(at) != other.char_at(at) {
                return false;
            }
        }
        true
    }

    /// The same text once more.
    pub fn copy(&self) -> Result<Text, AllocError>
        ensures { IfOk result (λ copy. copy ≡ self.now) }
    {
        Ok(Text {
            chars: self.chars.copy()?,
        })
    }
}

/// The characters of a string, line breaks repaired.
fn chars_of_repaired(alloc: Global, text: String) -> Result<Chars, AllocError>
    ensures value { IfOk result (λ cs. chars_of cs ≡ repaired (chars (string_bytes text))) }
    ensures kept { IfOk result IsKept }
{
    Chars::of(alloc, repaired(alloc, text)?)
}
