//! Several files: the first that is unready, how many are, and whether none is.
ghost use Rattle.std.specs.Prelude.{◌≡◌, ◌≤◌, ◌↔◌, IsTrue, None, length, filter, not};
ghost use Rattle.std.specs.List.{list_any};
ghost use Rattle.dumb_mode.specs.Unready.{is_unready_mark, lowest_unindexed, lower_of};

use crate::Mark;

/// The lowest id of the unready files. The marks may stand in any order. Linear in their number.
pub fn lowest_unindexed(marks: &[Mark]) -> Option<u32>
    ensures { result ≡ lowest_unindexed marks.now }
{
    let mut lowest = None;
    for mark in marks {
        if mark.is_unready() {
            lowest = Some(lower(mark.file, lowest));
        }
    }
    lowest
}

/// The lower of an id and another, where there is another.
fn lower(id: u32, other: Option<u32>) -> u32
    ensures { result ≡ lower_of id other }
{
    match other {
        Some(other) if other < id => other,
        _ => id,
    }
}

/// How many files are unready. Linear in the number of marks.
pub fn unready_count(marks: &[Mark]) -> u32
    requires { length marks.now ≤ u32.MAX }
    ensures { result ≡ length (filter is_unready_mark marks.now) }
{
    let mut count = 0;
    for mark in marks {
        if mark.is_unready() {
            count += 1;
        }
    }
    count
}

/// Whether no file is unready, so that a search may answer.
pub fn is_smart(marks: &[Mark]) -> bool
    ensures value { result ≡ not (list_any is_unready_mark marks.now) }
    ensures none { IsTrue result ↔ (lowest_unindexed marks.now ≡ None) }
{
    !marks.iter().any(|mark| mark.is_unready())
}
