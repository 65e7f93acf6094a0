//! The program over its command line: `lock_bench [MODE [TURNS]]`.
use crate::mode::{ALL, Turn};
use crate::play::{other, ours};
use std::alloc::AllocError;
use std::rt::Env;
use std::sync::Wait;
use std::thread::Threads;
use std::{env, io};

/// The turns of each thread where the command line gives none.
const TURNS: u64 = 100;

/// Plays the mode that the command line names, or each in turn where it names none, and prints how many turns were taken.
pub fn start<R: AllocGlobal + Env + Print + Threads + Wait + Sync>(rt: &R) -> io::Result<()> {
    let words: Vec<String> = env::args(rt)?.collect(rt.alloc())?;
    let turns = turns_of(words.get(2))?;
    play_all(rt, words.get(1), false, turns)?;
    play_all(rt, words.get(1), true, turns)
}

fn play_all<R: AllocGlobal + Print + Threads + Wait + Sync>(
    rt: &R,
    word: Option<&String>,
    plain: bool,
    turns: u64,
) -> io::Result<()> {
    for turn in ALL {
        let name = turn.name(plain);
        if is_wanted(word, name) {
            let done = play(rt, turn, plain, turns)?;
            println!(rt; "{name} {done} turns")?;
        }
    }
    Ok(())
}

fn play<R: AllocGlobal + Threads + Wait + Sync>(
    rt: &R,
    turn: Turn,
    plain: bool,
    turns: u64,
) -> Result<u64, AllocError> {
    if plain {
        other(rt, rt.alloc(), turn, turns)
    } else {
        ours(rt, rt.alloc(), turn, turns)
    }
}

fn is_wanted(word: Option<&String>, name: &str) -> bool {
    match word {
        Some(word) => word.as_str() == name,
        None => true,
    }
}

fn turns_of(word: Option<&String>) -> io::Result<u64> {
    match word {
        Some(word) => match word.as_str().parse::<u64>() {
            Ok(turns) => Ok(turns),
            Err(_) => Err(io::Error::from(io::ErrorKind::InvalidInput)),
        },
        None => Ok(TURNS),
    }
}
