//! The numbers at the beginning of an entry's text.
ghost use Rattle.std.specs.Prelude.{◌≡◌, ◌+◌, ◌-◌, ◌*◌, ◌≤◌};
ghost use Rattle.transcript_check.specs.Reading.{after_space, is_digit, number_at, seat_in, file_in};
ghost use Rattle.transcript_check.specs.Numbers.{IsNumber, IsSeatHere};

use crate::block::Block;

/// The seat of an entry, where it fits. Linear in the text at most, as the next one.
pub(crate) fn seat_in(text: &Block<'_>) -> Option<u32>
    ensures { IsNumber (seat_in text.now) result }
{
    number_at(after_space(text.bytes))
}

/// The seat of an entry, where it is that of a lane or worker: from 1 to the last.
pub(crate) fn seat_here(text: &Block<'_>, last: u32) -> Option<u32>
    ensures { IsSeatHere last (seat_in text.now) result }
{
    let seat = seat_in(text)?;
    if 1 <= seat && seat <= last {
        Some(seat)
    } else {
        None
    }
}

/// The file of an intake, where it fits.
pub(crate) fn file_in(text: &Block<'_>) -> Option<u32>
    ensures { IsNumber (file_in text.now) result }
{
    let seat = after_space(text.bytes);
    let line = after_space(seat);
    let word = after_space(line);
    number_at(after_space(word))
}

/// What follows the first space.
fn after_space(bytes: &[u8]) -> &[u8]
    ensures { result.now ≡ after_space bytes.now }
{
    let mut left = bytes;
    while let Some((byte, later)) = left.split_first() {
        if *byte == b' ' {
            return later;
        }
        left = later;
    }
    left
}

/// The number that the digits at the beginning spell, where it fits.
fn number_at(bytes: &[u8]) -> Option<u32>
    ensures { IsNumber (number_at bytes.now) result }
{
    let mut number = 0;
    let mut left = bytes;
    while let Some((byte, later)) = left.split_first() {
        if !byte.is_ascii_digit() {
            return Some(number);
        }
        let Some(next) = with_digit(number, *byte) else {
            return None;
        };
        number = next;
        left = later;
    }
    Some(number)
}

/// A number with one digit more, where it fits.
fn with_digit(number: u32, byte: u8) -> Option<u32>
    requires from { 48 ≤ byte }
    ensures { IsNumber (number * 10 + (byte - 48)) result }
{
    number.checked_mul(10)?.checked_add(u32::from(byte - b'0'))
}
