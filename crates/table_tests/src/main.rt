//! Plays cases on the crates below the workspace, and prints what comes of each line: texts, names, documents, files and histories,
//! tokens, words and declarations, rows under keys after changes, what names find in layers, the keys of texts of properties, the bytes of
//! stubs and stores, whole, cut and damaged, what scripts hold, and what sources, sinks and trees give.
//!
//! A line `== KIND: TITLE` begins a case; the module of the kind says what its lines are. `src/marks.rt` says how texts and bytes
//! are written on one line. `stdout` holds what is wanted.
#![tactic(auto)]

mod choices;
mod commands;
mod damaged;
mod declarations;
mod documents;
mod edits;
mod files;
mod histories;
mod java_texts;
mod kinds;
mod layers;
mod letters;
mod long_scripts;
mod marks;
mod names;
mod paths;
mod printed;
mod property_texts;
mod scripts;
mod signals;
mod sinks;
mod sources;
mod stores;
mod stubs;
mod tell;
mod texts;
mod trees;

use ide_io::{StdinSource, StdoutSink, read_all, write_all};
use kinds::Kind;
use std::alloc::AllocError;
use std::io;
use std::rt::Files;
use tell::tell_all;

/// How many bytes all cases together may have: more than one read gives.
const INPUT_LIMIT: usize = 1_000_000;

fn main(rt: HostRuntime) -> io::Result<()> {
    let mut input = StdinSource::<HostRuntime>::new(rt.reader());
    let Ok(cases) = read_all(rt.alloc(), &mut input, INPUT_LIMIT) else {
        return println!(rt; "the cases can't be read");
    };
    let mut out = String::new(rt.alloc());
    play_all(&rt, str::from_utf8(&cases).unwrap_or(""), &mut out)?;
    match write_all(&mut StdoutSink::new(io::writer(&rt)), out.as_bytes()) {
        Ok(()) => Ok(()),
        Err(_) => println!(rt; "what is told can't be written"),
    }
}

/// Plays each case.
fn play_all<R: Files + AllocGlobal>(
    rt: &R,
    cases: &str,
    out: &mut String,
) -> Result<(), AllocError> {
    for case in cases.split("== ") {
        let (title, lines) = case.split_once("\n").unwrap_or(("", ""));
        let (kind, _) = title.split_once(":").unwrap_or(("", ""));
        if !kind.is_empty() {
            push_title(title, out)?;
            play(rt, kind, lines, out)?;
        }
    }
    Ok(())
}

/// Adds the line that begins a case.
fn push_title(title: &str, out: &mut String) -> Result<(), AllocError> {
    out.push_str("== ")?;
    out.push_str(title)?;
    out.push('\n')
}

/// Plays the lines of a case of a kind.
fn play<R: Files + AllocGlobal>(
    rt: &R,
    kind: &str,
    lines: &str,
    out: &mut String,
) -> Result<(), AllocError> {
    let alloc = rt.alloc();
    match kind {
        "letters" => letters::play(alloc, lines, out),
        "layers" => layers::play(alloc, lines, out),
        "store" => stores::play(alloc, lines, out),
        "damaged store" => damaged::play(alloc, lines, out),
        "order" => names::play_order(alloc, lines, out),
        "history" => histories::play(alloc, lines, out),
        "files" => files::play(alloc, lines, out),
        "documents" => documents::play(alloc, lines, out),
        "tree in memory" => trees::play_in_memory(alloc, lines, out),
        "tree of a folder" => trees::play_folder(rt, lines, out),
        _ => tell_all(alloc, &mut Kind { name: kind }, lines, out),
    }
}
