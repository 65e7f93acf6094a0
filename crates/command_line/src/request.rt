//! What the words ask for.
ghost use Rattle.std.specs.Prelude.{◌≡◌, ◌≢◌, ◌↔◌, None, option_map, map, string_bytes, IfOk, OnErr};
ghost use Rattle.clap.specs.Words.{found_of, rows_of, subcommand_rows_of, kind_of};
ghost use Rattle.command_line.specs.Request.{text_in, path_in, number_in, play_by, demo_by, check_by, named_by, request_by, request_of, IsInRange, ReadsAs};

use crate::grammar::command;
use crate::number::number_between;
use clap::error::ErrorKind;
use clap::{ArgMatches, Error};
use ide_text::Name;
use std::alloc::{AllocError, Global};

/// The highest seed.
const MAX_SEED: u32 = 2_147_483_647;
/// The highest number of files.
const MAX_FILES: u32 = 10_000;
/// The highest number of edits.
const MAX_EDITS: u32 = 50_000;
/// The highest number of workers.
const MAX_WORKERS: u32 = 8;

/// What the program is asked to do.
#[derive(Debug, PartialEq, Eq, Drop)]
pub enum Request {
    /// A script is read from standard input and played, with so many workers beside its lanes, and with the index data of the
    /// store at a path, where one is given.
    Play {
        workers: u32,
        store: Option<Name>,
    },
    /// A script is made from a seed and played, with so many workers beside its lanes.
    Demo {
        seed: u32,
        files: u32,
        edits: u32,
        workers: u32,
    },
    /// A script is read from standard input, and the transcript at the path judged: whether it is one of that script with so
    /// many workers beside its lanes.
    Check {
        path: Name,
        workers: u32,
    },
    /// A script is read from standard input, and the store of index data of its last world written.
    Index,
}

/// Why no request is read from the words.
#[derive(Clone, Copy, Debug, PartialEq, Eq)]
pub enum WordsRefusal {
    /// The words are outside the grammar, or ask for help.
    Usage,
    /// Memory ran out.
    OutOfMemory,
}

impl From<AllocError> for WordsRefusal {
    ghost use Rattle.std.specs.Prelude.{◌≡◌};
    ghost use Rattle.command_line.specs.declared.request.WordsRefusal.TheVariants.{OutOfMemory};

    ghost from_gives = { λ _ refusal. refusal ≡ OutOfMemory };

    fn from(_: AllocError) -> WordsRefusal {
        WordsRefusal::OutOfMemory
    }
}

/// What the words ask for. The first of them is the program's name.
pub fn request_of(alloc: Global, words: &[String]) -> Result<Request, WordsRefusal>
    ensures ok { IfOk result (λ request. request_of (map string_bytes words.now) ≡ Some request) }
    ensures usage { result ≡ Err WordsRefusal.Usage
        → request_of (map string_bytes words.now) ≡ None }
    ensures in_range { IfOk result IsInRange }
{
    let Ok(command) = command(alloc) else {
        return Err(WordsRefusal::OutOfMemory);
    };
    match command.try_get_matches_from(words) {
        Ok(matches) => request_by(alloc, &matches),
        Err(error) => Err(refusal_by(&error)),
    }
}

/// Why `clap` takes no matches from the words.
fn refusal_by(error: &Error) -> WordsRefusal
    ensures { (result ≡ WordsRefusal.OutOfMemory) ↔ (kind_of error.now ≡ ErrorKind.OutOfMemory) }
{
    match error.kind() {
        ErrorKind::OutOfMemory => WordsRefusal::OutOfMemory,
        _ => WordsRefusal::Usage,
    }
}

/// What the subcommand asks for, where its numbers have the form and the range.
fn request_by(alloc: Global, matches: &ArgMatches<'_>) -> Result<Request, WordsRefusal>
    ensures { ReadsAs (request_by (subcommand_rows_of matches.now)) result }
{
    match matches.subcommand() {
        None => Ok(Request::Play {
            workers: 0,
            store: None,
        }),
        Some((name, options)) => named_by(alloc, name, options),
    }
}

/// What the subcommand of this name asks for, where its numbers have the form and the range.
fn named_by(alloc: Global, name: &str, options: &ArgMatches<'_>) -> Result<Request, WordsRefusal>
    ensures { ReadsAs (named_by name.now (rows_of (found_of options.now))) result }
{
    if name == "play" {
        play_by(alloc, options)
    } else if name == "demo" {
        demo_by(options).ok_or(WordsRefusal::Usage)
    } else if name == "index" {
        Ok(Request::Index)
    } else {
        check_by(alloc, options)
    }
}

/// What `play` with these options asks for.
fn play_by(alloc: Global, options: &ArgMatches<'_>) -> Result<Request, WordsRefusal>
    ensures { ReadsAs (play_by (rows_of (found_of options.now))) result }
{
    let workers = number_in(options, "workers", 0, MAX_WORKERS).ok_or(WordsRefusal::Usage)?;
    let store = path_in(alloc, options, "store")?;
    Ok(Request::Play { workers, store })
}

/// What `demo` with these options asks for.
fn demo_by(options: &ArgMatches<'_>) -> Option<Request>
    ensures { result ≡ demo_by (rows_of (found_of options.now)) }
{
    let seed = number_in(options, "seed", 0, MAX_SEED)?;
    let files = number_in(options, "files", 1, MAX_FILES)?;
    let edits = number_in(options, "edits", 0, MAX_EDITS)?;
    let workers = number_in(options, "workers", 0, MAX_WORKERS)?;
    Some(Request::Demo {
        seed,
        files,
        edits,
        workers,
    })
}

/// What `check` with these options asks for.
fn check_by(alloc: Global, options: &ArgMatches<'_>) -> Result<Request, WordsRefusal>
    ensures { ReadsAs (check_by (rows_of (found_of options.now))) result }
{
    let workers = number_in(options, "workers", 0, MAX_WORKERS).ok_or(WordsRefusal::Usage)?;
    let path = text_in(options, "path").ok_or(WordsRefusal::Usage)?;
    let path = Name::of(alloc, path)?;
    Ok(Request::Check { path, workers })
}

/// The number that an option has, where it lies within these bounds.
fn number_in(options: &ArgMatches<'_>, name: &str, least: u32, most: u32) -> Option<u32>
    ensures { result ≡ number_in (rows_of (found_of options.now)) name.now least most }
{
    number_between(least, most, text_in(options, name)?)
}

/// The path that an option has, where it is given.
fn path_in(alloc: Global, options: &ArgMatches<'_>, name: &str) -> Result<Option<Name>, AllocError>
    ensures ok { IfOk result (λ path. path ≡ path_in (rows_of (found_of options.now)) name.now) }
    ensures err { OnErr result (path_in (rows_of (found_of options.now)) name.now ≢ None) }
{
    match text_in(options, name) {
        Some(path) => Ok(Some(Name::of(alloc, path)?)),
        None => Ok(None),
    }
}

/// The word that an option or an argument has.
fn text_in<'a>(options: &ArgMatches<'a>, name: &str) -> Option<&'a str>
    ensures { option_map (λ word. word.now) result
        ≡ text_in (rows_of (found_of options.now)) name.now }
{
    options.get_str(name)
}
