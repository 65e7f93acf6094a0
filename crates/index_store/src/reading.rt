//! Bytes to the fields of entries.
//!
//! A text is kept as a name, which is what entries are ordered by; the data of an entry stay where they are.
ghost use Rattle.std.specs.Prelude.{◌≡◌, None, option_copied};
ghost use Rattle.byte_fields.specs.Answers.{Gives};
ghost use Rattle.byte_fields.specs.Reading.{many_at};
ghost use Rattle.index_store.specs.Lawful.{key_rises, word_rises};
ghost use Rattle.byte_fields.specs.Reading.{counted_at};
ghost use Rattle.index_store.specs.Reading.{behind, is_mask, key_at, word_at};

use byte_fields::{Fault, byte_of, characters_of, check, name_of, number_of};
use ide_text::Name;
use std::alloc::Global;

/// What is left behind the words of a text.
#[tactic(auto, unfolding(byte_fields::specs::Reading::counted_at))]
pub(crate) fn past_words(alloc: Global, bytes: &[u8]) -> Result<&[u8], Fault>
    ensures { Gives (λ left. left.now) result (behind (counted_at word_at bytes.now)) }
{
    let (count, rest) = number_of(bytes)?;
    past_so_many_words(alloc, count, rest)
}

/// What is left behind so many words.
fn past_so_many_words(alloc: Global, count: u32, bytes: &[u8]) -> Result<&[u8], Fault>
    ensures { Gives (λ left. left.now) result (behind (many_at word_at count None bytes.now)) }
{
    let mut before = None;
    let mut rest = bytes;
    for _ in 0..count {
        let (word, after) = word_of(alloc, before.as_ref(), rest)?;
        before = Some(word);
        rest = after;
    }
    Ok(rest)
}

/// A word with its mask, behind the one before it.
#[tactic(auto, unfolding(crate::specs::Reading::word_at))]
fn word_of<'a>(
    alloc: Global,
    before: Option<&(Name, u8)>,
    bytes: &'a [u8],
) -> Result<((Name, u8), &'a [u8]), Fault>
    ensures { Gives (λ x. (x.0, x.1.now)) result (word_at (option_copied before.entry) bytes.now) }
{
    let (len, rest) = number_of(bytes)?;
    check(0 < len, bytes)?;
    let (name, behind) = characters_of(alloc, len, rest)?;
    check(word_rises(before, &name), rest)?;
    let (mask, end) = byte_of(behind)?;
    check(is_mask(mask), behind)?;
    Ok(((name, mask), end))
}

/// Whether a name is above that of the word before.
fn word_rises(before: Option<&(Name, u8)>, name: &Name) -> bool
    ensures { result ≡ word_rises (option_copied before.entry) name.now }
{
    match before {
        Some((last, _)) => last < name,
        None => true,
    }
}

/// Whether a mask has one of three bits, and no other.
fn is_mask(mask: u8) -> bool
    ensures { result ≡ is_mask mask }
{
    1 <= mask && mask <= 7
}

/// What is left behind the keys of a text with so many characters.
#[tactic(auto, unfolding(byte_fields::specs::Reading::counted_at))]
pub(crate) fn past_keys(alloc: Global, len: u32, bytes: &[u8]) -> Result<&[u8], Fault>
    ensures { Gives (λ left. left.now) result (behind (counted_at (key_at len) bytes.now)) }
{
    let (count, rest) = number_of(bytes)?;
    past_so_many_keys(alloc, len, count, rest)
}

/// What is left behind so many keys of a text with so many characters.
fn past_so_many_keys(alloc: Global, len: u32, count: u32, bytes: &[u8]) -> Result<&[u8], Fault>
    ensures { Gives (λ left. left.now) result (behind (many_at (key_at len) count None bytes.now)) }
{
    let mut before = None;
    let mut rest = bytes;
    for _ in 0..count {
        let (key, after) = key_of(alloc, len, before.as_ref(), rest)?;
        before = Some(key);
        rest = after;
    }
    Ok(rest)
}

/// A key with its offset, behind the one before it.
#[tactic(auto, unfolding(crate::specs::Reading::key_at))]
fn key_of<'a>(
    alloc: Global,
    len: u32,
    before: Option<&(Name, u32)>,
    bytes: &'a [u8],
) -> Result<((Name, u32), &'a [u8]), Fault>
    ensures { Gives (λ x. (x.0, x.1.now)) result
        (key_at len (option_copied before.entry) bytes.now) }
{
    let (name, rest) = name_of(alloc, bytes)?;
    let (at, end) = number_of(rest)?;
    check(key_rises(before, at) && at < len, rest)?;
    Ok(((name, at), end))
}

/// Whether an offset is above that of the key before.
fn key_rises(before: Option<&(Name, u32)>, at: u32) -> bool
    ensures { result ≡ key_rises (option_copied before.entry) at }
{
    match before {
        Some((_, last)) => *last < at,
        None => true,
    }
}
