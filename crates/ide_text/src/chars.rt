//! How the characters of a text lie in memory: a byte each where all of them are ASCII, as in most sources.
ghost use Rattle.std.specs.Prelude.{◌≡◌, ◌≤◌, ◌<◌, ◌+◌, ◌-◌, ◌++◌, IsTrue, IfOk, IfSome, OnOk, Some, length, slice_get, take, drop, vec_len, vec_capacity, encode_utf8_all};
ghost use Rattle.std.specs.Char.{is_ascii};
ghost use Rattle.std.specs.List.{list_all};
ghost use Rattle.std.specs.Str.{chars, all_scalars, IsAscii};
ghost use Rattle.std.specs.String.{string_bytes};
ghost use Rattle.ide_text.specs.Chars.{chars_of, IsKept};
ghost use Rattle.ide_text.specs.Spelling.{bytes_of};
ghost use Rattle.ide_text.specs.Text.{max_chars, repaired, repaired_char};

use crate::inline::ROOM;
use crate::spelling::Spelling;
use arrayvec::ArrayString;
use std::alloc::{AllocError, Global};

/// Some characters.
#[derive(Drop)]
pub(crate) enum Chars {
    /// All of them are ASCII.
    Ascii(String),
    /// Any.
    Any(Vec<char>),
}

impl Chars {
    /// The characters of a text.
    pub(crate) fn of(alloc: Global, text: String) -> Result<Chars, AllocError>
        ensures value { IfOk result (λ cs. chars_of cs ≡ chars (string_bytes text)) }
        ensures kept { IfOk result IsKept }
    {
        if text.is_ascii() {
            return Ok(Chars::Ascii(text));
        }
        Ok(Chars::Any(text.chars().collect(alloc)?))
    }

    /// The number of characters.
    pub(crate) fn len(&self) -> usize
        ensures { result ≡ length (chars_of self.now) }
    {
        match self {
            Chars::Ascii(text) => text.len(),
            Chars::Any(chars) => chars.len(),
        }
    }

    /// The character at a place.
    pub(crate) fn char_at(&self, at: usize) -> char
        requires { at < length (chars_of self.now) }
        ensures { slice_get (chars_of self.now) at ≡ Some result }
    {
        match self {
            Chars::Ascii(text) => text.as_bytes()[at] as char,
            Chars::Any(chars) => chars[at],
        }
    }

    /// The characters as a string, where they are kept as ASCII.
    pub(crate) fn ascii(&self) -> Option<&str>
        ensures { IfSome result (λ ascii. ascii.now ≡ chars_of self.now) }
    {
        match self {
            Chars::Ascii(text) => Some(text.as_str()),
            Chars::Any(_) => None,
        }
    }

    /// The characters from one place up to another as a string, where they are kept as ASCII.
    pub(crate) fn letters(&self, from: usize, to: usize) -> Option<&str>
        requires kept { IsKept self.now }
        requires ordered { from ≤ to }
        requires inside { to ≤ length (chars_of self.now) }
        ensures { IfSome result
            (λ letters. chars letters.now ≡ take (to - from) (drop from (chars_of self.now))) }
    {
        match self {
            Chars::Ascii(text) => Some(&text[from..to]),
            Chars::Any(_) => None,
        }
    }

    /// Adds the characters from one place up to another, in UTF-8.
    pub(crate) fn add_part(
        &self,
        out: &mut String,
        from: usize,
        to: usize,
    ) -> Result<(), AllocError>
        requires kept { IsKept self.now }
        requires ordered { from ≤ to }
        requires inside { to ≤ length (chars_of self.now) }
        ensures { OnOk result
            (string_bytes out.new ≡ string_bytes out.old
            ++ encode_utf8_all (take (to - from) (drop from (chars_of self.now)))) }
    {
        match self {
            Chars::Ascii(text) => out.push_str(&text[from..to]),
            Chars::Any(chars) => add_chars(out, &chars[from..to]),
        }
    }

    /// How the characters from one place up to another are spelt.
    pub(crate) fn spelling(
        &self,
        alloc: Global,
        from: usize,
        to: usize,
    ) -> Result<Spelling, AllocError>
        requires kept { IsKept self.now }
        requires ordered { from ≤ to }
        requires inside { to ≤ length (chars_of self.now) }
        ensures { IfOk result
            (λ made. bytes_of made
            ≡ encode_utf8_all (take (to - from) (drop from (chars_of self.now)))) }
    {
        match self {
            Chars::Ascii(text) => Spelling::of(alloc, &text[from..to]),
            Chars::Any(chars) => spelling_of(alloc, &chars[from..to]),
        }
    }

    /// The same characters with others put in before a place.
    pub(crate) fn with_piece(&self, at: usize, piece: &Chars) -> Result<Chars, AllocError>
        requires kept { IsKept self.now }
        requires kept_piece { IsKept piece.now }
        requires inside { at ≤ length (chars_of self.now) }
        requires scalars { IsTrue
            (all_scalars
            (take at (chars_of self.now) ++ chars_of piece.now
            ++ drop at (chars_of self.now))) }
        ensures value { IfOk result
            (λ cs. chars_of cs ≡ take at (chars_of self.now) ++ chars_of piece.now
            ++ drop at (chars_of self.now)) }
        ensures kept { IfOk result IsKept }
    {
        let alloc = self.alloc();
        let mut out = String::with_capacity(alloc, self.len())?;
        self.add_part(&mut out, 0, at)?;
        piece.add_part(&mut out, 0, piece.len())?;
        self.add_part(&mut out, at, self.len())?;
        Chars::of(alloc, out)
    }

    /// Takes the characters from one place up to another out. It takes no memory.
    pub(crate) fn erase(&mut self, from: usize, to: usize)
        requires kept { IsKept self.old }
        requires ordered { from ≤ to }
        requires inside { to ≤ length (chars_of self.old) }
        ensures value { chars_of self.new ≡ take from (chars_of self.old)
            ++ drop to (chars_of self.old) }
        ensures kept { IsKept self.new }
    {
        match self {
            Chars::Ascii(text) => match text.replace_range(from..to, "") {
                Ok(()) => {}
                Err(_) => unreachable!(),
            },
            Chars::Any(chars) => {
                let _ = chars.drain(from..to);
            }
        }
    }

    /// What gave the characters their memory.
    fn alloc(&self) -> Global {
        match self {
            Chars::Ascii(text) => *text.allocator(),
            Chars::Any(chars) => *chars.allocator(),
        }
    }

    /// The same characters once more.
    pub(crate) fn copy(&self) -> Result<Chars, AllocError>
        requires { IsKept self.now }
        ensures value { IfOk result (λ copy. chars_of copy ≡ chars_of self.now) }
        ensures kept { IfOk result IsKept }
    {
        Ok(match self {
            Chars::Ascii(text) => Chars::Ascii(text.clone()?),
            Chars::Any(chars) => Chars::Any(chars.clone()?),
        })
    }
}

/// Two lists of characters, one after the other, which a text may have. Linear in both, with room for both made at once.
pub(crate) fn joined(alloc: Global, front: &[char], back: &[char]) -> Result<Chars, AllocError>
    requires { length front.now + length back.now ≤ max_chars }
    ensures value { IfOk result (λ cs. chars_of cs ≡ front.now ++ back.now) }
    ensures kept { IfOk result IsKept }
{
    let len = front.len() + back.len();
    if are_ascii(front) && are_ascii(back) {
        let mut bytes = Vec::with_capacity(alloc, len)?;
        add_ascii(&mut bytes, front);
        add_ascii(&mut bytes, back);
        return Ok(Chars::Ascii(unsafe { String::from_utf8_unchecked(bytes) }));
    }
    let mut chars = Vec::with_capacity(alloc, len)?;
    chars.extend_from_slice(front)?;
    chars.extend_from_slice(back)?;
    Ok(Chars::Any(chars))
}

/// Whether all characters are ASCII. It stops at none, so that several are looked at at once.
fn are_ascii(chars: &[char]) -> bool
    ensures { result ≡ list_all is_ascii chars.now }
{
    let mut all = true;
    for c in chars {
        all &= c.is_ascii();
    }
    all
}

/// Adds a byte for each character. There is room for all.
fn add_ascii(bytes: &mut Vec<u8>, chars: &[char])
    requires ascii { IsTrue (list_all is_ascii chars.now) }
    requires room { vec_len bytes.old + length chars.now ≤ vec_capacity bytes.old }
    ensures all { bytes.new.items ≡ bytes.old.items ++ chars.now }
    ensures ascii { IsAscii bytes.old.items → IsAscii bytes.new.items }
    ensures room { vec_capacity bytes.new ≡ vec_capacity bytes.old }
    ensures len { vec_len bytes.new ≡ vec_len bytes.old + length chars.now }
{
    for c in chars {
        bytes.push_reserved(*c as u8);
    }
}

/// How some characters are spelt.
fn spelling_of(alloc: Global, chars: &[char]) -> Result<Spelling, AllocError>
    ensures { IfOk result (λ made. bytes_of made ≡ encode_utf8_all chars.now) }
{
    if let Some(short) = short_of(chars) {
        return Spelling::of(alloc, short.as_str());
    }
    let mut out = String::with_capacity(alloc, chars.len())?;
    add_chars(&mut out, chars)?;
    Spelling::of_string(alloc, out)
}

/// Some characters in UTF-8, if they are few.
fn short_of(chars: &[char]) -> Option<ArrayString<ROOM>>
    ensures { IfSome result (λ short. short.bytes ≡ encode_utf8_all chars.now) }
{
    let mut short = ArrayString::new();
    for c in chars {
        if short.try_push(*c).is_err() {
            return None;
        }
    }
    Some(short)
}

/// Adds some characters in UTF-8.
fn add_chars(out: &mut String, chars: &[char]) -> Result<(), AllocError>
    ensures { OnOk result
        (string_bytes out.new ≡ string_bytes out.old ++ encode_utf8_all chars.now) }
{
    for c in chars {
        out.push(*c)?;
    }
    Ok(())
}

/// A text with its line breaks repaired.
pub(crate) fn repaired(alloc: Global, text: String) -> Result<String, AllocError>
    ensures { IfOk result (λ out. chars (string_bytes out) ≡ repaired (chars (string_bytes text))) }
{
    if !text.as_bytes().contains(&b'\r') {
        return Ok(text);
    }
    let chars: Vec<char> = text.chars().collect(alloc)?;
    with_breaks_repaired(alloc, &chars)
}

/// Some characters with CR LF and a lone CR as `\n`, in UTF-8.
fn with_breaks_repaired(alloc: Global, chars: &[char]) -> Result<String, AllocError>
    ensures { IfOk result (λ out. string_bytes out ≡ encode_utf8_all (repaired chars.now)) }
{
    let mut out = String::with_capacity(alloc, chars.len())?;
    let mut after_return = false;
    for c in chars {
        push_repaired(&mut out, after_return, *c)?;
        after_return = *c == '\r';
    }
    Ok(out)
}

/// Adds what one character gives.
fn push_repaired(out: &mut String, after_return: bool, c: char) -> Result<(), AllocError>
    ensures { OnOk result
        (string_bytes out.new ≡ string_bytes out.old
        ++ encode_utf8_all (repaired_char after_return c)) }
{
    if c == '\r' {
        out.push('\n')
    } else if after_return && c == '\n' {
        Ok(())
    } else {
        out.push(c)
    }
}
