//! The scenes.
use crate::acts::{Act, Told};
use crate::board::Note;
use crate::clock::TURNS;
use crate::stage::Scene;

/// In a scene the clock beats in one order alone, which the numbers tell.
pub static SCENES: [Scene; 11] = [
    // Two passes read at once. The second has its number, and has seen no mark.
    Scene {
        refused: (0, 0),
        skipped: (0, 0, 0),
        full: false,
        lanes: [
            &[(Act::Read(0, 2), Told::Found(0))],
            &[
                (Act::Await(1), Told::Is(true)),
                (Act::Read(0, 0), Told::Found(0)),
                (Act::Number, Told::Count(1)),
                (Act::Sights, Told::Count(0)),
            ],
            &[],
            &[],
        ],
        notes: &[&[]],
    },
    // A lock has 65,536 numbers, and then no more.
    Scene {
        refused: (0, 0),
        skipped: (0, 0, 65_532),
        full: true,
        lanes: [&[], &[], &[], &[(Act::Number, Told::Count(65_535))]],
        notes: &[&[]],
    },
    // Three passes in three threads read side by side: each stays in until all are in.
    Scene {
        refused: (0, 0),
        skipped: (0, 0, 0),
        full: false,
        lanes: [
            &[(Act::Read(0, 3), Told::Found(0))],
            &[(Act::Read(0, 3), Told::Found(0))],
            &[(Act::Read(0, 3), Told::Found(0))],
            &[],
        ],
        notes: &[&[]],
    },
    // A read that waits, and one whose work is lent the share and the watch at the same time.
    Scene {
        refused: (0, 0),
        skipped: (0, 0, 0),
        full: false,
        lanes: [
            &[
                (Act::ReadWaiting, Told::Found(0)),
                (Act::Read(0, 0), Told::Found(0)),
            ],
            &[],
            &[],
            &[],
        ],
        notes: &[&[]],
    },
    // While another writes, no read is let in, a soft read is cancelled at its second attempt, and the intent isn't to be had.
    // Once the write has ended, a soft read answers.
    Scene {
        refused: (0, 0),
        skipped: (0, 0, 0),
        full: false,
        lanes: [
            &[
                (Act::Await(2), Told::Is(true)),
                (Act::Read(0, 0), Told::Pending(7)),
                (Act::Sights, Told::Count(1)),
                (Act::ReadSoftly(2, 0), Told::Cancelled(2)),
                (Act::Sights, Told::Count(3)),
                (Act::TryChange(0, None, 0), Told::Held),
                (Act::Beat, Told::Count(2)),
                (Act::Await(4), Told::Is(true)),
                (Act::ReadSoftly(2, 0), Told::Found(1)),
                (Act::Sights, Told::Count(3)),
            ],
            &[
                (Act::TryChange(0, Some(1), 3), Told::Is(true)),
                (Act::Number, Told::Count(1)),
                (Act::Beat, Told::Count(3)),
            ],
            &[],
            &[],
        ],
        notes: &[&[Note { number: 1, text: 1 }]],
    },
    // Writes follow one another: one, two under one intent, and one that is given up.
    Scene {
        refused: (0, 0),
        skipped: (0, 0, 0),
        full: false,
        lanes: [
            &[
                (Act::Change(Some(1), 0), Told::Is(true)),
                (Act::ChangeTwice(2), Told::Is(true)),
                (Act::Change(None, 0), Told::Is(false)),
                (Act::Read(0, 0), Told::Found(3)),
            ],
            &[],
            &[],
            &[],
        ],
        notes: &[&[
            Note { number: 0, text: 1 },
            Note { number: 0, text: 2 },
            Note { number: 0, text: 2 },
        ]],
    },
    // A reader and then a soft reader see that a writer waits for them, and of two that ask for the intent one is told of the other.
    Scene {
        refused: (0, 0),
        skipped: (0, 0, 0),
        full: false,
        lanes: [
            &[
                (Act::Read(TURNS, 0), Told::Seen),
                (Act::Sights, Told::Count(1)),
                (Act::Await(3), Told::Is(true)),
                (Act::ReadSoftly(1, TURNS), Told::Cancelled(1)),
                (Act::Sights, Told::Count(2)),
                (Act::Await(6), Told::Is(true)),
                (Act::ReadSoftly(1, 0), Told::Found(2)),
                (Act::TryChange(9, None, 0), Told::Is(false)),
                (Act::Beat, Told::Count(10)),
            ],
            &[
                (Act::Await(1), Told::Is(true)),
                (Act::Change(Some(1), 0), Told::Is(true)),
                (Act::Beat, Told::Count(2)),
                (Act::Await(4), Told::Is(true)),
                (Act::Change(Some(1), 0), Told::Is(true)),
                (Act::Beat, Told::Count(5)),
                (Act::Await(8), Told::Is(true)),
                (Act::TryChange(0, None, 0), Told::Held),
                (Act::Beat, Told::Count(8)),
            ],
            &[],
            &[],
        ],
        notes: &[&[Note { number: 1, text: 1 }, Note { number: 1, text: 1 }]],
    },
    // Two passes write in threads of their own.
    Scene {
        refused: (0, 0),
        skipped: (0, 0, 0),
        full: false,
        lanes: [
            &[],
            &[
                (Act::Change(Some(0), 0), Told::Is(true)),
                (Act::Number, Told::Count(1)),
            ],
            &[
                (Act::Change(Some(1), 0), Told::Is(true)),
                (Act::Number, Told::Count(2)),
            ],
            &[],
        ],
        notes: &[
            &[Note { number: 1, text: 0 }, Note { number: 2, text: 1 }],
            &[Note { number: 2, text: 1 }, Note { number: 1, text: 0 }],
        ],
    },
    // Numbers 32 apart share a place: 1 and 33 read, 0 wants to write, and 65 finds the word of their place.
    Scene {
        refused: (0, 0),
        skipped: (0, 31, 31),
        full: false,
        lanes: [
            &[
                (Act::Await(2), Told::Is(true)),
                (Act::Change(None, 7), Told::Is(false)),
                (Act::Beat, Told::Count(7)),
            ],
            &[
                (Act::Number, Told::Count(1)),
                (Act::Read(0, 5), Told::Found(0)),
            ],
            &[
                (Act::Number, Told::Count(33)),
                (Act::Await(1), Told::Is(true)),
                (Act::Read(0, 3), Told::Found(0)),
                (Act::Beat, Told::Count(3)),
            ],
            &[
                (Act::Number, Told::Count(65)),
                (Act::Await(2), Told::Is(true)),
                // Both readers and the mark; and the write has not begun, or the clock had beaten once more.
                (Act::ReadUntilRefused, Told::Pending(20)),
                (Act::Beat, Told::Count(2)),
                (Act::Await(4), Told::Is(true)),
                // One has left, and the write has not begun.
                (Act::Read(0, 0), Told::Pending(12)),
                (Act::Beat, Told::Count(4)),
                (Act::Await(6), Told::Is(true)),
                // The write goes on.
                (Act::Read(0, 0), Told::Pending(7)),
                (Act::Beat, Told::Count(6)),
            ],
        ],
        notes: &[&[]],
    },
    // After a write that found no memory for any share no pass reads, and after the next one each does.
    Scene {
        refused: (32, 32),
        skipped: (0, 0, 0),
        full: false,
        lanes: [
            &[
                (Act::Read(0, 0), Told::Found(0)),
                (Act::Change(Some(1), 0), Told::Is(true)),
                (Act::Read(0, 0), Told::Lacks),
                (Act::Beat, Told::Count(2)),
                (Act::Await(4), Told::Is(true)),
                (Act::Change(Some(1), 0), Told::Is(true)),
                (Act::Beat, Told::Count(5)),
            ],
            &[
                (Act::Await(3), Told::Is(true)),
                (Act::Read(0, 0), Told::Lacks),
                (Act::ReadWaiting, Told::Lacks),
                (Act::Beat, Told::Count(3)),
                (Act::Await(6), Told::Is(true)),
                (Act::Read(0, 0), Told::Found(2)),
            ],
            &[],
            &[],
        ],
        notes: &[&[Note { number: 0, text: 1 }, Note { number: 0, text: 1 }]],
    },
    // After a write that found no memory for the share of one place, the passes of that place alone don't read.
    Scene {
        refused: (63, 1),
        skipped: (0, 0, 0),
        full: false,
        lanes: [
            &[
                (Act::Change(Some(1), 0), Told::Is(true)),
                (Act::Read(0, 0), Told::Lacks),
                (Act::Beat, Told::Count(1)),
                (Act::Await(4), Told::Is(true)),
                (Act::Change(Some(1), 0), Told::Is(true)),
                (Act::Read(0, 0), Told::Found(2)),
            ],
            &[
                (Act::Await(2), Told::Is(true)),
                (Act::Read(0, 0), Told::Found(1)),
                (Act::Beat, Told::Count(3)),
            ],
            &[],
            &[],
        ],
        notes: &[&[Note { number: 0, text: 1 }, Note { number: 0, text: 1 }]],
    },
];
