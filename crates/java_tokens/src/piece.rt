//! A part of a text, read by places of its own.
ghost use Rattle.std.specs.Prelude.{◌≡◌, ◌+◌, ◌-◌, ◌<◌, ◌≤◌, suc, [], ◌∷◌, IsTrue, IfOk, IfSome, IfNone, OnSome, length, take, drop};
ghost use Rattle.std.specs.List.{prefix_len};
ghost use Rattle.ide_text.specs.Text.{max_chars};
ghost use Rattle.java_tokens.specs.Chars.{begins_with, is_other};

use ide_text::{Name, Spelt, Text};
use memchr::memchr;
use std::alloc::{AllocError, Global};
use std::marker::Model;

/// Some characters of a text that follow one another.
#[derive(Drop)]
pub struct Piece<'a> {
    text: &'a Text,
    from: u32,
    len: u32,
    /// Its bytes, where the text is kept as ASCII.
    ascii: Option<&'a [u8]>,
}

impl<'a> Model for Piece<'a> {
    ghost use Rattle.std.specs.Prelude.{List, ℕ, ◌≡◌, ◌+◌, ◌≤◌, IfSome, length, take, drop};
    ghost use Rattle.ide_text.specs.Text.{max_chars};

    ghost Value = { List ℕ };

    ghost view = { λ p. take p.len (drop p.from p.text.now) };

    ghost invariant = { λ p. (p.from + p.len ≤ length p.text.now) × (length p.text.now ≤ max_chars)
        × IfSome p.ascii (λ bytes. bytes.now ≡ take p.len (drop p.from p.text.now)) };
}

impl<'a> Piece<'a> {
    /// All of a text.
    pub fn whole(text: &'a Text) -> Piece<'a>
        ensures { result ≡ text.now }
    {
        Piece::part(text, 0, text.len())
    }

    /// So many characters from a place on.
    pub fn part(text: &'a Text, from: u32, len: u32) -> Piece<'a>
        requires { from + len ≤ length text.now }
        ensures { result ≡ take len (drop from text.now) }
    {
        prove!(text.len() >= from + len);
        Piece {
            text,
            from,
            len,
            ascii: ascii_part(text, from, len),
        }
    }

    /// The number of characters.
    pub fn len(&self) -> u32
        ensures len { result ≡ length self.now }
        ensures few { result ≤ max_chars }
    {
        self.len
    }

    /// The characters as bytes, where the text is kept as ASCII.
    #[inline]
    pub fn ascii(&self) -> Option<&[u8]>
        ensures value { IfSome result (λ bytes. bytes.now ≡ self.now) }
        ensures few { length self.now ≤ max_chars }
    {
        self.ascii
    }

    /// The character at a place, if the place is inside.
    #[inline]
    pub fn get(&self, at: u32) -> Option<char>
        ensures some { IfSome result (λ c. drop at self.now ≡ c ∷ drop (suc at) self.now) }
        ensures inside { OnSome result (at < length self.now) }
        ensures none { IfNone result (drop at self.now ≡ []) }
        ensures few { length self.now ≤ max_chars }
    {
        match self.ascii {
            Some(bytes) => Some(*bytes.get(at as usize)? as char),
            None if at < self.len => Some(self.text.char_at(self.from + at)),
            None => None,
        }
    }

    /// The first place from one on at which a mark stands, an ASCII character, or else the end. An ASCII text is searched many
    /// bytes at once.
    pub fn skip_to(&self, from: u32, mark: u8) -> u32
        ensures { result ≡ from + prefix_len (is_other mark) (drop from self.now) }
    {
        match self.ascii {
            Some(bytes) if from < self.len => {
                from + bytes_before(&bytes[from as usize..], mark) as u32
            }
            _ => self.walk_to(from, mark as char),
        }
    }

    /// The same, character by character.
    fn walk_to(&self, from: u32, mark: char) -> u32
        ensures { result ≡ from + prefix_len (is_other mark) (drop from self.now) }
    {
        let mut at = from;
        while let Some(c) = self.get(at) {
            if c == mark {
                break;
            }
            at += 1;
        }
        at
    }

    /// Whether the characters from a place on begin with a mark.
    pub fn has(&self, at: u32, mark: &[char]) -> bool
        requires inside { at ≤ max_chars }
        requires short { length mark.now ≤ 3 }
        ensures { result ≡ begins_with mark.now (drop at self.now) }
    {
        let mut place = at;
        for wanted in mark {
            if self.get(place) != Some(*wanted) {
                return false;
            }
            place += 1;
        }
        true
    }

    /// The characters from one place up to another, to look a name up by, where the text is kept as ASCII.
    pub fn spelt(&self, from: u32, to: u32) -> Option<Spelt<'_>>
        requires ordered { from ≤ to }
        requires inside { to ≤ length self.now }
        ensures { IfSome result (λ spelt. spelt ≡ take (to - from) (drop from self.now)) }
    {
        self.text.spelt(self.from + from, self.from + to)
    }

    /// The name that the characters from one place up to another are.
    pub fn name(&self, alloc: Global, from: u32, to: u32) -> Result<Name, AllocError>
        requires ordered { from ≤ to }
        requires inside { to ≤ length self.now }
        ensures { IfOk result (λ name. name ≡ take (to - from) (drop from self.now)) }
    {
        Name::of_text(alloc, self.text, self.from + from, self.from + to)
    }
}

/// The bytes of so many characters of a text from a place on, where it is kept as ASCII.
fn ascii_part(text: &Text, from: u32, len: u32) -> Option<&[u8]>
    requires { from + len ≤ length text.now }
    ensures { IfSome result (λ bytes. bytes.now ≡ take len (drop from text.now)) }
{
    let bytes = text.ascii()?.as_bytes();
    let from = from as usize;
    Some(&bytes[from..from + len as usize])
}

/// How many bytes stand before the first that is a mark.
fn bytes_before(bytes: &[u8], mark: u8) -> usize
    ensures value { result ≡ prefix_len (is_other mark) bytes.now }
    ensures inside { result ≤ length bytes.now }
{
    memchr(mark, bytes).unwrap_or(bytes.len())
}
