//! Bytes to fields: what a format of several fields is read by, one after another.
//!
//! A field that is cut or unlawful is told by the number of bytes from its first on (`Fault`).
ghost use Rattle.byte_fields.specs.Answers.{Gives};
ghost use Rattle.byte_fields.specs.Reading.{checked, byte_at, number_at, characters_at, name_at};

use crate::fault::Fault;
use ide_text::Name;
use std::alloc::Global;
use std::str;

/// A name: the number of its bytes, at least one, and the bytes.
#[tactic(auto, unfolding(crate::specs::Reading::name_at))]
pub fn name_of(alloc: Global, bytes: &[u8]) -> Result<(Name, &[u8]), Fault>
    ensures { Gives (λ x. (x.0, x.1.now)) result (name_at bytes.now) }
{
    let (len, rest) = number_of(bytes)?;
    check(0 < len, bytes)?;
    characters_of(alloc, len, rest)
}

/// The characters of so many bytes of UTF-8.
#[tactic(auto, unfolding(crate::specs::Reading::characters_at))]
pub fn characters_of(alloc: Global, len: u32, bytes: &[u8]) -> Result<(Name, &[u8]), Fault>
    ensures { Gives (λ x. (x.0, x.1.now)) result (characters_at len bytes.now) }
{
    let len = len as usize;
    check(len <= bytes.len(), bytes)?;
    let (text, rest) = bytes.split_at(len);
    let Ok(text) = str::from_utf8(text) else {
        return Err(Fault::Unlawful(bytes.len()));
    };
    Ok((Name::of(alloc, text)?, rest))
}

/// A number of four bytes, the greatest first.
#[tactic(auto, unfolding(crate::specs::Reading::number_at))]
pub fn number_of(bytes: &[u8]) -> Result<(u32, &[u8]), Fault>
    ensures { Gives (λ x. (x.0, x.1.now)) result (number_at bytes.now) }
{
    if bytes.len() < 4 {
        return Err(Fault::Unlawful(bytes.len()));
    }
    let (front, rest) = bytes.split_at(4);
    let number = u32::from_be_bytes([front[0], front[1], front[2], front[3]]);
    Ok((number, rest))
}

/// A byte.
pub fn byte_of(bytes: &[u8]) -> Result<(u8, &[u8]), Fault>
    ensures { Gives (λ x. (x.0, x.1.now)) result (byte_at bytes.now) }
{
    match bytes {
        [] => Err(Fault::Unlawful(0)),
        [byte, rest @ ..] => Ok((*byte, rest)),
    }
}

/// Tells that the field at the front of these bytes is unlawful, unless it is lawful.
pub fn check(lawful: bool, bytes: &[u8]) -> Result<(), Fault>
    ensures { Gives (λ x. x) result (checked lawful bytes.now) }
{
    if lawful {
        Ok(())
    } else {
        Err(Fault::Unlawful(bytes.len()))
    }
}
