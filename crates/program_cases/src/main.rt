//! Plays cases from standard input, each a command line, a script and calls that are to fail, and prints what comes of
//! each: the number with which the program ends, how much it writes, its line on standard error, and what it writes.
//!
//! A line `== TITLE` begins a case. `=words A|B` is its command line (`ide` alone where there is none); `=read N`,
//! `=load N` and `=write N` name calls on the source, the tree and the sink that fail, `=pieces` lets the source give 4
//! bytes at a time and the sink take 5, `=room N` is how much the sink takes in all, `=ends` shows no more than the
//! first and the last line that are written, and `=hex` shows all that is written in hex digits. Every other line is a line of the script, and `=times N TEXT` adds a text to
//! the script N times, with the number for each `@`. In scripts `^` is a carriage return and `|` a line feed; `=cut` takes
//! the last byte away.
#![tactic(auto)]

mod case;
mod printing;
mod running;

use case::Case;
use printing::print;
use running::run;
use std::io;
use std::rt::Files;
use std::sync::Wait;
use std::thread::Threads;

fn main(rt: HostRuntime) -> io::Result<()> {
    let mut case = None;
    for line in rt.lines(rt.alloc()) {
        let line = line?;
        if line.starts_with("==") {
            play(&rt, case.replace(Case::new(rt.alloc(), &line)?))?;
        } else if let Some(case) = &mut case {
            case.add(rt.alloc(), &line)?;
        }
    }
    play(&rt, case)
}

/// Plays a case, if there is one, and prints what comes of it. It may block.
fn play<R: AllocGlobal + Files + Print + Threads + Wait + Sync>(
    rt: &R,
    case: Option<Case>,
) -> io::Result<()> {
    match case {
        Some(case) => print(rt, &case, &run(rt, &case)?),
        None => Ok(()),
    }
}
