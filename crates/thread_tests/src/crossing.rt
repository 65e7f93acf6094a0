//! A run in which soft questions are given up: a write waits for a reader that is held, while another lane goes on asking.
use crate::judging::{is_right, no_files};
use crate::running::{run, script_of};
use action_lock::{Gate, Point};
use playing::play;
use script_lang::Script;
use shared_ide::Store;
use std::alloc::{AllocError, Global};
use std::sync::Wait;
use std::sync::atomic::{AtomicU64, Ordering};
use std::thread;
use std::thread::Threads;
use transcripts::{Answer, Played};
use write_history::History;

/// How often a thread looks at most whether it may go on.
const TURNS: u64 = 10_000_000;

/// How often a lane that asks softly lets the others go on before it asks.
const PAUSE: u64 = 1_000;

/// How many soft questions there are.
const QUESTIONS: u32 = 200;

/// The seat of the lane that is held with its read open.
const READER: u32 = 1;

/// The seat of the lane that writes.
const WRITER: u32 = 2;

/// The seat of the lane that asks softly.
const ASKER: u32 = 3;

/// Whether these three kinds of runs are right. It may block.
pub fn are_crossings_right<R: Threads + Wait + Sync>(
    rt: &R,
    alloc: Global,
) -> Result<bool, AllocError> {
    Ok(
        is_crossing_right(rt, alloc)?
            && are_writes_right(rt, alloc)?
            && are_files_taken_in(rt, alloc)?,
    )
}

/// Whether soft questions are given up in a run where they cross a write, and the run is right. It may block.
fn is_crossing_right<R: Threads + Wait + Sync>(rt: &R, alloc: Global) -> Result<bool, AllocError> {
    let script = crossing_script(alloc)?;
    is_crossing_of(rt, alloc, &script, &Crossing::new())
}

/// The same of the script, at a gate.
fn is_crossing_of<R: Threads + Wait + Sync>(
    rt: &R,
    alloc: Global,
    script: &Script,
    gate: &Crossing,
) -> Result<bool, AllocError> {
    let played = play(rt, alloc, script, &[], 0, Store::empty(alloc), gate)?;
    let is_as_held = gate.all_met() && given_up(&played) > 0 && played.history.len() == 2;
    Ok(is_as_held && is_right(alloc, script, 0, &mut no_files(alloc), &played)?)
}

/// Whether a run of a script with so many workers is right, and its lines make so many entries. It may block.
fn makes_entries<R: Threads + Wait + Sync>(
    rt: &R,
    alloc: Global,
    script: &str,
    workers: u32,
    entries: u32,
) -> Result<bool, AllocError> {
    let script = script_of(alloc, script.as_bytes())?;
    makes_entries_of(rt, alloc, &script, workers, entries)
}

/// The same of the script.
fn makes_entries_of<R: Threads + Wait + Sync>(
    rt: &R,
    alloc: Global,
    script: &Script,
    workers: u32,
    entries: u32,
) -> Result<bool, AllocError> {
    let played = run(rt, alloc, script, workers, &mut no_files(alloc))?;
    Ok(
        entries_of_lines(&played.history) == entries
            && is_right(alloc, script, workers, &mut no_files(alloc), &played)?,
    )
}

/// Whether a run of a hundred writes beside a hundred soft questions and two workers is right. It may block.
fn are_writes_right<R: Threads + Wait + Sync>(rt: &R, alloc: Global) -> Result<bool, AllocError> {
    let script = writes_and_questions(alloc)?;
    makes_entries(rt, alloc, &script, 2, 101)
}

/// Whether a run with two lanes of three hundred files each and two workers is right. It may block.
fn are_files_taken_in<R: Threads + Wait + Sync>(rt: &R, alloc: Global) -> Result<bool, AllocError> {
    let script = many_files(alloc)?;
    makes_entries(rt, alloc, &script, 2, 600)
}

/// A lane that reads, one that writes, and one with many soft questions.
fn crossing_script(alloc: Global) -> Result<Script, AllocError> {
    let mut script = String::from_str(
        alloc,
        "create A.java \"class A {}\"\nlane\nstatus\nlane\nwrite A.java \"class B {}\"\nlane\n",
    )?;
    for _ in 0..QUESTIONS {
        script.push_str("soft 2 status\n")?;
    }
    script_of(alloc, script.as_bytes())
}

/// A lane with a hundred writes, and one with a hundred soft questions.
fn writes_and_questions(alloc: Global) -> Result<String, AllocError> {
    let mut script = String::from_str(alloc, "create A.java \"class A {}\"\nlane\n")?;
    for _ in 0..100 {
        script.push_str("write A.java \"class B {}\"\n")?;
    }
    script.push_str("lane\n")?;
    for _ in 0..100 {
        script.push_str("soft 1 status\n")?;
    }
    Ok(script)
}

/// Two lanes with three hundred files each, all of which the workers or the last section take in.
fn many_files(alloc: Global) -> Result<String, AllocError> {
    let mut script = String::new(alloc);
    for lane in 1..3 {
        script.push_str("lane\n")?;
        for file in 0..300 {
            script.push_str(&format!(in alloc; "create F{lane}x{file}.java \"class A\"\n")?)?;
        }
    }
    script.push_str("finally\nsettle\nclass A\nstatus\n")?;
    Ok(script)
}

/// A gate that holds the reader until a soft question was given up, and the two others until it reads.
#[derive(Drop)]
struct Crossing {
    read: AtomicU64,
    asked: AtomicU64,
    answered: AtomicU64,
    given_up: AtomicU64,
    missed: AtomicU64,
}

impl Crossing {
    fn new() -> Crossing {
        Crossing {
            read: AtomicU64::new(0),
            asked: AtomicU64::new(0),
            answered: AtomicU64::new(0),
            given_up: AtomicU64::new(0),
            missed: AtomicU64::new(0),
        }
    }

    /// Whether nobody was held in vain.
    fn all_met(&self) -> bool {
        self.missed.load(Ordering::SeqCst) == 0
    }

    /// Waits until a count has begun.
    fn wait(&self, count: &AtomicU64) {
        for _ in 0..TURNS {
            if count.load(Ordering::SeqCst) > 0 {
                return;
            }
            thread::yield_now();
        }
        self.missed.fetch_add(1, Ordering::SeqCst);
    }

    /// Takes note of the asker's last question, where it wasn't answered.
    fn judge_last(&self) {
        if self.asked.load(Ordering::SeqCst) > self.answered.load(Ordering::SeqCst) {
            self.given_up.fetch_add(1, Ordering::SeqCst);
        }
    }

    /// The asker begins: it lets the others go on for a while.
    fn ask(&self) {
        self.wait(&self.read);
        if self.given_up.load(Ordering::SeqCst) > 0 {
            return;
        }
        self.judge_last();
        self.asked.fetch_add(1, Ordering::SeqCst);
        for _ in 0..PAUSE {
            thread::yield_now();
        }
    }

    /// The reader has its read open.
    fn read(&self) {
        self.read.fetch_add(1, Ordering::SeqCst);
        self.wait(&self.given_up);
    }
}

impl Gate for Crossing {
    fn at(&self, point: Point) -> bool {
        match point {
            Point::Start { seat: WRITER, .. } => self.wait(&self.read),
            Point::Start { seat: ASKER, .. } => self.ask(),
            Point::Reading { seat: READER } => self.read(),
            Point::Reading { seat: ASKER } => {
                self.answered.fetch_add(1, Ordering::SeqCst);
            }
            Point::Ended { seat: ASKER } => self.judge_last(),
            _ => {}
        }
        true
    }
}

/// How many entries the script's lines made, those of workers apart.
fn entries_of_lines(history: &History) -> u32 {
    let mut count = 0u32;
    for before in 0..history.len() {
        if history.get(before + 1).line != 0 {
            count = count.wrapping_add(1);
        }
    }
    count
}

/// How many soft questions of a run were given up.
fn given_up(played: &Played) -> u32 {
    let mut count = 0u32;
    for record in played.records.as_slice() {
        if matches!(record.answer, Answer::Cancelled { .. }) {
            count = count.wrapping_add(1);
        }
    }
    count
}
