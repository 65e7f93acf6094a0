//! Damaged transcripts, and the first misfit that is wanted of each.
use crate::judging::no_files;
use crate::running::script_of;
use ide_io::MemoryTree;
use script_lang::Script;
use std::alloc::{AllocError, Global};
use transcript_check::{Misfit, first_misfit};

/// A script with its workers, and texts with what is wanted of each.
#[derive(Clone, Copy)]
pub struct Damaged {
    pub script: &'static str,
    pub workers: u32,
    pub texts: &'static [(&'static str, Option<Misfit>)],
}

/// The first text whose misfit isn't as wanted, or nothing.
pub fn fault_of_misfits(alloc: Global) -> Result<String, AllocError> {
    for damaged in &DAMAGED {
        let fault = fault_of(alloc, damaged)?;
        if !fault.is_empty() {
            return Ok(fault);
        }
    }
    Ok(String::new(alloc))
}

/// The same of the texts of one script.
fn fault_of(alloc: Global, damaged: &Damaged) -> Result<String, AllocError> {
    let script = script_of(alloc, damaged.script.as_bytes())?;
    let mut tree = no_files(alloc);
    fault_of_texts(alloc, &script, damaged.workers, &mut tree, damaged.texts)
}

/// The same, over a tree.
fn fault_of_texts(
    alloc: Global,
    script: &Script,
    workers: u32,
    tree: &mut MemoryTree,
    texts: &[(&str, Option<Misfit>)],
) -> Result<String, AllocError> {
    for (text, wanted) in texts {
        if !is_misfit(alloc, script, workers, tree, text, wanted)? {
            return String::from_str(alloc, text);
        }
    }
    Ok(String::new(alloc))
}

/// Whether the first misfit of a text is the one that is wanted.
fn is_misfit(
    alloc: Global,
    script: &Script,
    workers: u32,
    tree: &mut MemoryTree,
    text: &str,
    wanted: &Option<Misfit>,
) -> Result<bool, AllocError> {
    match first_misfit(alloc, script, workers.min(8), tree, text.as_bytes()) {
        Ok(found) => Ok(found == *wanted),
        Err(_) => Err(AllocError),
    }
}

/// A script that goes alone, and one with two lanes and a worker.
pub const DAMAGED: [Damaged; 2] = [
    Damaged {
        script: "create A.java \"class A {}\"\nsettle\nword A\n",
        workers: 0,
        texts: &[
            (
                "history 2\n1 0 1 create A.java 10\n2 0 2 intake 1 1\n1 at 1 accepted\n2 at 2 smart\n3 at 2 rows 1\n  A.java code\n",
                None,
            ),
            ("", Some(Misfit::NoBlock)),
            (
                "history 3\n1 0 1 create A.java 10\n2 0 2 intake 1 1\n1 at 1 accepted\n2 at 2 smart\n3 at 2 rows 1\n  A.java code\n",
                Some(Misfit::History { entries: 2 }),
            ),
            (
                "history 2\n1 0 1 create A.java 11\n2 0 2 intake 1 1\n1 at 1 accepted\n2 at 2 smart\n3 at 2 rows 1\n  A.java code\n",
                Some(Misfit::Line {
                    seat: 0,
                    line: 1,
                    entry: 1,
                    record: 3,
                }),
            ),
            (
                "history 2\n1 0 1 create A.java 10\n2 0 2 intake 1 1\n1 at 1 accepted\n2 at 1 smart\n3 at 2 rows 1\n  A.java code\n",
                Some(Misfit::Line {
                    seat: 0,
                    line: 2,
                    entry: 2,
                    record: 4,
                }),
            ),
            (
                "history 2\n1 0 1 create A.java 10\n2 0 2 intake 1 1\n1 at 1 accepted\n2 at 2 smart\n3 at 2 rows 1\n  B.java code\n",
                Some(Misfit::Line {
                    seat: 0,
                    line: 3,
                    entry: 3,
                    record: 5,
                }),
            ),
            (
                "history 3\n1 0 1 create A.java 10\n2 0 2 intake 1 1\n3 0 2 intake 1 1\n1 at 1 accepted\n2 at 2 smart\n3 at 2 rows 1\n  A.java code\n",
                Some(Misfit::Left { block: 3 }),
            ),
        ],
    },
    Damaged {
        script: "lane\ncreate A.java \"class A {}\"\nstatus\nlane\ncreate B.java \"class B {}\"\nstatus\n",
        workers: 1,
        texts: &[
            (
                "history 4\n1 1 2 create A.java 10\n2 3 0 intake 1 1\n3 2 5 create B.java 10\n4 3 0 intake 2 2\n2 at 1 accepted\n3 at 2 status files 1 open 0 unready 0\n5 at 3 accepted\n6 at 3 status files 2 open 0 unready 1\n",
                None,
            ),
            (
                "history 4\n1 1 2 create A.java 10\n2 3 0 intake 1 1\n3 2 5 create B.java 10\n4 3 0 intake 1 1\n2 at 1 accepted\n3 at 2 status files 1 open 0 unready 0\n5 at 3 accepted\n6 at 3 status files 2 open 0 unready 1\n",
                Some(Misfit::Entry {
                    seat: 3,
                    position: 4,
                }),
            ),
            (
                "history 4\n1 1 2 create A.java 10\n2 3 0 intake 1 1\n3 2 5 create B.java 10\n4 3 0 intake 2 2\n2 at 1 accepted\n3 at 2 status files 1 open 0 unready 0\n5 at 4 accepted\n6 at 3 status files 2 open 0 unready 1\n",
                Some(Misfit::Entry {
                    seat: 2,
                    position: 3,
                }),
            ),
            (
                "history 4\n1 1 2 create A.java 10\n2 3 0 intake 1 1\n3 2 5 create B.java 10\n4 3 0 intake 2 2\n2 at 1 accepted\n3 at 2 status files 1 open 0 unready 0\n5 at 3 accepted\n6 at 3 status files 2 open 0 unready 2\n",
                Some(Misfit::Line {
                    seat: 2,
                    line: 6,
                    entry: 5,
                    record: 8,
                }),
            ),
            (
                "history 4\n1 1 2 create A.java 10\n2 3 0 intake 1 1\n3 2 5 create B.java 10\n4 3 0 intake 2 2\n2 at 1 accepted\n3 at 2 status files 3 open 0 unready 0\n5 at 3 accepted\n6 at 3 status files 2 open 0 unready 2\n",
                Some(Misfit::Line {
                    seat: 1,
                    line: 3,
                    entry: 5,
                    record: 6,
                }),
            ),
            (
                "history 4\n1 1 2 create A.java 10\n2 3 0 intake 1 1\n3 2 5 create B.java 10\n4 4 0 intake 2 2\n2 at 1 accepted\n3 at 2 status files 1 open 0 unready 0\n5 at 3 accepted\n6 at 3 status files 2 open 0 unready 1\n",
                Some(Misfit::Left { block: 4 }),
            ),
        ],
    },
];
