//! Runs of words, looked at sixteen bytes at a time.
ghost use Rattle.std.specs.Prelude.{◌≡◌, ◌+◌, ◌≤◌, map, length, drop};
ghost use Rattle.std.specs.List.{prefix_len};
ghost use Rattle.std.specs.Simd.Lanes.{mask_l};
ghost use Rattle.ide_text.specs.Text.{max_chars};
ghost use Rattle.java_tokens.specs.Chars.{continues_word};
ghost use Rattle.java_tokens.specs.Class.{is_no_ascii_word};

use std::simd::prelude::*;

/// How many bytes are looked at together.
const LANES: usize = 16;

/// A place up to which the bytes from another on go on in a word: where a byte stands that isn't of ASCII or ends the word, or
/// fewer than sixteen are left.
pub(crate) fn word_front(bytes: &[u8], from: u32) -> u32
    requires { length bytes.now ≤ max_chars }
    ensures { result + prefix_len continues_word (drop result bytes.now)
        ≡ from + prefix_len continues_word (drop from bytes.now) }
{
    let mut at = from as usize;
    while bytes.len().saturating_sub(at) >= LANES {
        let front = front_of(bytes, at);
        at += front;
        if front < LANES {
            break;
        }
    }
    at as u32
}

/// How many of sixteen bytes from a place on go on in a word of ASCII, before the first that doesn't.
#[inline(always)]
fn front_of(bytes: &[u8], at: usize) -> usize
    requires { at + 16 ≤ length bytes.now }
    ensures few { result ≤ 16 }
    ensures same { at + result + prefix_len continues_word (drop (at + result) bytes.now)
        ≡ at + prefix_len continues_word (drop at bytes.now) }
{
    let others = others(u8x16::from_slice(&bytes[at..]));
    if others == 0 {
        LANES
    } else {
        others.trailing_zeros() as usize
    }
}

/// A bit for each byte that goes on in no word of ASCII.
#[inline(always)]
fn others(bytes: u8x16) -> u64
    ensures { result ≡ mask_l (map is_no_ascii_word bytes) }
{
    let letter = (bytes | u8x16::splat(0x20)) - u8x16::splat(b'a');
    let digit = bytes - u8x16::splat(b'0');
    (letter.simd_ge(u8x16::splat(26))
        & digit.simd_ge(u8x16::splat(10))
        & bytes.simd_ne(u8x16::splat(b'_'))
        & bytes.simd_ne(u8x16::splat(b'$'))).to_bitmask()
}
