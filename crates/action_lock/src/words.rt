//! The words and slots of the lock's table, and the marks of a place's word.
ghost use Rattle.std.specs.Prelude.{◌≡◌, ◌<◌};
ghost use Rattle.action_lock.specs.Words.{word_at, has_turn, has_pending};
ghost use Rattle.action_lock.specs.Steps.{sights_after};

/// The most places that a lock has.
pub(crate) const MOST_PLACES: u32 = 32;

/// How many words there are. Those that are used lie 16 apart, so that no two share a cache line.
pub(crate) const WORDS: usize = 544;

/// Where the count of entries stands.
pub(crate) const COUNT: usize = 0;

/// Where the intent word stands.
pub(crate) const INTENT: usize = 16;

pub(crate) const TURN: u64 = 1;

pub(crate) const PENDING: u64 = 4;

/// The word of a place that is shut: the turn, the mark of the writer, and the pending mark.
pub(crate) const SHUT: u64 = 7;

/// What one reader adds to the word of its place.
pub(crate) const READER: u64 = 8;

/// Where the word of a place stands.
pub(crate) fn word_at(place: usize) -> usize
    requires { place < 32 }
    ensures is { result ≡ word_at place }
    ensures within { result < 544 }
{
    16 * place + 32
}

pub(crate) fn has_turn(word: u64) -> bool
    ensures { result ≡ has_turn word }
{
    word & TURN != 0
}

pub(crate) fn has_pending(word: u64) -> bool
    ensures { result ≡ has_pending word }
{
    word & PENDING != 0
}

/// The count of sights after a look that found the word.
pub(crate) fn sights_after(sights: u64, word: u64) -> u64
    ensures { result ≡ sights_after sights word }
{
    if has_pending(word) {
        sights.saturating_add(1)
    } else {
        sights
    }
}
