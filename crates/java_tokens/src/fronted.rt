//! Rows of words that are quick to compare.
ghost use Rattle.std.specs.Prelude.{◌≡◌, ◌+◌, ◌^◌, ◌<◌};
ghost use Rattle.java_tokens.specs.Front.{front_of, weights};
ghost use Rattle.java_tokens.specs.Words.{name_cmp};

use ide_text::Name;
use std::cmp::Ordering;
use std::marker::Model;

/// What the first eight bytes of a name weigh in its front.
const WEIGHTS: [u64; 8] = [
    0x100_0000_0000_0000,
    0x1_0000_0000_0000,
    0x100_0000_0000,
    0x1_0000_0000,
    0x100_0000,
    0x1_0000,
    0x100,
    1,
];

/// A row beside a number for the front of its name, by which two rows are mostly ordered without a look at their names.
#[derive(Drop)]
pub(crate) struct Fronted {
    front: u64,
    row: (Name, u8),
}

impl Model for Fronted {
    ghost use Rattle.std.specs.Prelude.{◌≡◌};
    ghost use Rattle.java_tokens.specs.Front.{front_of, weights};
    ghost use Rattle.java_tokens.specs.Words.{WordRow};

    ghost Value = { WordRow };

    ghost view = { λ f. f.row };

    ghost invariant = { λ f. f.front ≡ front_of weights f.row.0 };
}

impl Fronted {
    /// A row.
    pub(crate) fn of(row: (Name, u8)) -> Fronted
        ensures { result ≡ row }
    {
        let front = front_of_name(&row.0);
        Fronted { front, row }
    }

    /// The row itself.
    pub(crate) fn into_row(self) -> (Name, u8)
        ensures { result ≡ self }
    {
        self.row
    }

    /// The order of the names of two rows.
    pub(crate) fn order(&self, other: &Fronted) -> Ordering
        ensures { result ≡ name_cmp self.now.0 other.now.0 }
    {
        if self.front < other.front {
            Ordering::Less
        } else if other.front < self.front {
            Ordering::Greater
        } else {
            self.row.0.cmp(&other.row.0)
        }
    }
}

/// The front of a name.
fn front_of_name(name: &Name) -> u64
    ensures { result ≡ front_of weights name.now }
{
    front_of(name.as_str().as_bytes(), &WEIGHTS)
}

/// The front of some bytes.
#[tactic(auto, unfolding(crate::specs::Front::front_of))]
fn front_of(bytes: &[u8], weights: &[u64]) -> u64
    requires { front_of weights.now bytes.now < 2 ^ 64 }
    ensures { result ≡ front_of weights.now bytes.now }
{
    let mut front = 0;
    let mut left = bytes;
    let mut digits = weights;
    while let Some((weight, fewer)) = digits.split_first() {
        let Some((byte, rest)) = left.split_first() else {
            return front;
        };
        if *byte >= 128 {
            return front + 128 * *weight;
        }
        front += *byte as u64 * *weight;
        left = rest;
        digits = fewer;
    }
    front
}
