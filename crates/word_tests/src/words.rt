//! A table of words with what they ask for, where there is memory enough.
use crate::tables::command_words;
use command_line::{Request, WordsRefusal, request_of};
use ide_text::Name;
use std::alloc::{AllocError, Global};
use std::test::Fail;

/// What words ask for, spelled out.
#[derive(Clone, Copy)]
enum Wanted {
    Play {
        workers: u32,
    },
    /// `play` with a store.
    PlayStored {
        store: &'static str,
        workers: u32,
    },
    Index,
    Demo {
        seed: u32,
        files: u32,
        edits: u32,
        workers: u32,
    },
    Check {
        path: &'static str,
        workers: u32,
    },
    Usage,
}

/// The words behind the program's name, and what they ask for.
struct Case {
    words: &'static [&'static str],
    gives: Wanted,
}

static CASES: [Case; 75] = [
    // The subcommands, and their defaults.
    Case {
        words: &[],
        gives: Wanted::Play { workers: 0 },
    },
    Case {
        words: &["play"],
        gives: Wanted::Play { workers: 0 },
    },
    Case {
        words: &["play", "--workers", "0"],
        gives: Wanted::Play { workers: 0 },
    },
    Case {
        words: &["play", "--workers=0"],
        gives: Wanted::Play { workers: 0 },
    },
    Case {
        words: &["play", "--workers", "1"],
        gives: Wanted::Play { workers: 1 },
    },
    Case {
        words: &["play", "--workers=8"],
        gives: Wanted::Play { workers: 8 },
    },
    Case {
        words: &["play", "--store", "s"],
        gives: Wanted::PlayStored {
            store: "s",
            workers: 0,
        },
    },
    Case {
        words: &["play", "--store=out/a b.store", "--workers", "8"],
        gives: Wanted::PlayStored {
            store: "out/a b.store",
            workers: 8,
        },
    },
    Case {
        words: &["play", "--workers=1", "--store", "index"],
        gives: Wanted::PlayStored {
            store: "index",
            workers: 1,
        },
    },
    Case {
        words: &["play", "--store=--workers"],
        gives: Wanted::PlayStored {
            store: "--workers",
            workers: 0,
        },
    },
    Case {
        words: &["play", "--store", "é\u{1F600}"],
        gives: Wanted::PlayStored {
            store: "é\u{1F600}",
            workers: 0,
        },
    },
    Case {
        words: &["index"],
        gives: Wanted::Index,
    },
    Case {
        words: &["demo"],
        gives: Wanted::Demo {
            seed: 1,
            files: 8,
            edits: 32,
            workers: 0,
        },
    },
    Case {
        words: &["demo", "--seed", "0", "--files", "1", "--edits", "0"],
        gives: Wanted::Demo {
            seed: 0,
            files: 1,
            edits: 0,
            workers: 0,
        },
    },
    Case {
        words: &[
            "demo",
            "--edits=50000",
            "--seed",
            "2147483647",
            "--files",
            "10000",
            "--workers",
            "0",
        ],
        gives: Wanted::Demo {
            seed: 2147483647,
            files: 10000,
            edits: 50000,
            workers: 0,
        },
    },
    Case {
        words: &["demo", "--workers", "8"],
        gives: Wanted::Demo {
            seed: 1,
            files: 8,
            edits: 32,
            workers: 8,
        },
    },
    // A path is any word.
    Case {
        words: &["check", "t"],
        gives: Wanted::Check {
            path: "t",
            workers: 0,
        },
    },
    Case {
        words: &["check", "out/a b.txt", "--workers", "8"],
        gives: Wanted::Check {
            path: "out/a b.txt",
            workers: 8,
        },
    },
    Case {
        words: &["check", "--workers=1", "check"],
        gives: Wanted::Check {
            path: "check",
            workers: 1,
        },
    },
    Case {
        words: &["check", "--", "--workers"],
        gives: Wanted::Check {
            path: "--workers",
            workers: 0,
        },
    },
    Case {
        words: &["check", "é\u{1F600}"],
        gives: Wanted::Check {
            path: "é\u{1F600}",
            workers: 0,
        },
    },
    Case {
        words: &["check", ""],
        gives: Wanted::Check {
            path: "",
            workers: 0,
        },
    },
    // Past a bound.
    Case {
        words: &["demo", "--seed", "2147483648"],
        gives: Wanted::Usage,
    },
    Case {
        words: &["demo", "--files", "0"],
        gives: Wanted::Usage,
    },
    Case {
        words: &["demo", "--files", "10001"],
        gives: Wanted::Usage,
    },
    Case {
        words: &["demo", "--edits", "50001"],
        gives: Wanted::Usage,
    },
    Case {
        words: &["demo", "--seed", "4294967297"],
        gives: Wanted::Usage,
    },
    Case {
        words: &["play", "--workers", "9"],
        gives: Wanted::Usage,
    },
    Case {
        words: &["demo", "--workers", "9"],
        gives: Wanted::Usage,
    },
    Case {
        words: &["check", "t", "--workers", "9"],
        gives: Wanted::Usage,
    },
    // Numbers out of form.
    Case {
        words: &["check", "t", "--workers", "01"],
        gives: Wanted::Usage,
    },
    Case {
        words: &["demo", "--seed", "01"],
        gives: Wanted::Usage,
    },
    Case {
        words: &["demo", "--seed", "+1"],
        gives: Wanted::Usage,
    },
    Case {
        words: &["demo", "--seed", "1_0"],
        gives: Wanted::Usage,
    },
    Case {
        words: &["demo", "--seed", "-1"],
        gives: Wanted::Usage,
    },
    Case {
        words: &["demo", "--seed", "0x1"],
        gives: Wanted::Usage,
    },
    Case {
        words: &["demo", "--seed", ""],
        gives: Wanted::Usage,
    },
    Case {
        words: &["demo", "--seed", "00"],
        gives: Wanted::Usage,
    },
    Case {
        words: &["demo", "--seed="],
        gives: Wanted::Usage,
    },
    Case {
        words: &["play", "--workers", "00"],
        gives: Wanted::Usage,
    },
    Case {
        words: &["play", "--workers", "03"],
        gives: Wanted::Usage,
    },
    // Outside what clap takes.
    Case {
        words: &["demo", "--seed"],
        gives: Wanted::Usage,
    },
    Case {
        words: &["demo", "--seed", "1", "--seed", "2"],
        gives: Wanted::Usage,
    },
    Case {
        words: &["demo", "--see", "1"],
        gives: Wanted::Usage,
    },
    Case {
        words: &["demo", "-s", "1"],
        gives: Wanted::Usage,
    },
    Case {
        words: &["demo", "7"],
        gives: Wanted::Usage,
    },
    Case {
        words: &["play", "play"],
        gives: Wanted::Usage,
    },
    Case {
        words: &["check"],
        gives: Wanted::Usage,
    },
    Case {
        words: &["check", "a", "b"],
        gives: Wanted::Usage,
    },
    Case {
        words: &["check", "-t"],
        gives: Wanted::Usage,
    },
    Case {
        words: &["check", "t", "--path", "t"],
        gives: Wanted::Usage,
    },
    Case {
        words: &["--workers", "1", "check", "t"],
        gives: Wanted::Usage,
    },
    Case {
        words: &["--workers", "0"],
        gives: Wanted::Usage,
    },
    Case {
        words: &["--seed", "1", "demo"],
        gives: Wanted::Usage,
    },
    Case {
        words: &["play", "--seed", "1"],
        gives: Wanted::Usage,
    },
    Case {
        words: &["record"],
        gives: Wanted::Usage,
    },
    Case {
        words: &[""],
        gives: Wanted::Usage,
    },
    // A store's path that is missing, given twice or where none may stand, and `index`, which has nothing behind it.
    Case {
        words: &["play", "--store"],
        gives: Wanted::Usage,
    },
    Case {
        words: &["play", "--store", "-s"],
        gives: Wanted::Usage,
    },
    Case {
        words: &["play", "--store", "a", "--store", "b"],
        gives: Wanted::Usage,
    },
    Case {
        words: &["play", "--store", "s", "--workers", "9"],
        gives: Wanted::Usage,
    },
    Case {
        words: &["play", "s"],
        gives: Wanted::Usage,
    },
    Case {
        words: &["--store", "s"],
        gives: Wanted::Usage,
    },
    Case {
        words: &["demo", "--store", "s"],
        gives: Wanted::Usage,
    },
    Case {
        words: &["check", "t", "--store", "s"],
        gives: Wanted::Usage,
    },
    Case {
        words: &["index", "s"],
        gives: Wanted::Usage,
    },
    Case {
        words: &["index", "--workers", "0"],
        gives: Wanted::Usage,
    },
    Case {
        words: &["index", "--store", "s"],
        gives: Wanted::Usage,
    },
    Case {
        words: &["Index"],
        gives: Wanted::Usage,
    },
    Case {
        words: &["index", "--help"],
        gives: Wanted::Usage,
    },
    // Words that ask for help, and those that end the options.
    Case {
        words: &["--help"],
        gives: Wanted::Usage,
    },
    Case {
        words: &["-h"],
        gives: Wanted::Usage,
    },
    Case {
        words: &["help"],
        gives: Wanted::Usage,
    },
    Case {
        words: &["--version"],
        gives: Wanted::Usage,
    },
    Case {
        words: &["demo", "--help"],
        gives: Wanted::Usage,
    },
];

/// What is wanted, as `request_of` gives it.
fn wanted_request(
    alloc: Global,
    wanted: Wanted,
) -> Result<Result<Request, WordsRefusal>, AllocError> {
    Ok(match wanted {
        Wanted::Play { workers } => Ok(Request::Play {
            workers,
            store: None,
        }),
        Wanted::PlayStored { store, workers } => Ok(Request::Play {
            workers,
            store: Some(Name::of(alloc, store)?),
        }),
        Wanted::Index => Ok(Request::Index),
        Wanted::Demo {
            seed,
            files,
            edits,
            workers,
        } => Ok(Request::Demo {
            seed,
            files,
            edits,
            workers,
        }),
        Wanted::Check { path, workers } => Ok(Request::Check {
            path: Name::of(alloc, path)?,
            workers,
        }),
        Wanted::Usage => Err(WordsRefusal::Usage),
    })
}

#[test]
fn words_and_requests(rt: HostRuntime) -> Result<(), Fail> {
    for case in CASES.iter() {
        let words = command_words(rt.alloc(), case.words)?;
        let wanted = wanted_request(rt.alloc(), case.gives)?;
        let request = request_of(rt.alloc(), words.as_slice());
        assert_eq!(rt; request, wanted, "{:?}", case.words);
    }
    Ok(())
}
