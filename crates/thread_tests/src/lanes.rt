//! Scripts with lanes and workers: each run's transcript is one of those that the rules allow.
use crate::program::{checked_long, written};
use crate::told::{Section, entries_of, records_of};
use std::alloc::{AllocError, Global};
use std::sync::Wait;
use std::test::Fail;
use std::thread::Threads;

/// A script and all transcripts that it may have.
pub struct Lawful {
    pub script: &'static str,
    pub transcripts: &'static [&'static str],
}

/// How often each script is played.
const TIMES: usize = 40;

/// Scripts whose lanes run beside one another, each with all transcripts that it may have.
pub static SCRIPTS: [Lawful; 4] = [
    // The two creates come in either order, and the lane that wrote first asks before or after the other's write.
    Lawful {
        script: r#"lane
create A.java "class A {}"
status
lane
create B.java "class B {}"
status
"#,
        transcripts: &[
            r#"history 2
1 1 2 create A.java 10
2 2 5 create B.java 10
2 at 1 accepted
3 at 1 status files 1 open 0 unready 1
5 at 2 accepted
6 at 2 status files 2 open 0 unready 2
"#,
            r#"history 2
1 1 2 create A.java 10
2 2 5 create B.java 10
2 at 1 accepted
3 at 2 status files 2 open 0 unready 2
5 at 2 accepted
6 at 2 status files 2 open 0 unready 2
"#,
            r#"history 2
1 2 5 create B.java 10
2 1 2 create A.java 10
2 at 2 accepted
3 at 2 status files 2 open 0 unready 2
5 at 1 accepted
6 at 1 status files 1 open 0 unready 1
"#,
            r#"history 2
1 2 5 create B.java 10
2 1 2 create A.java 10
2 at 2 accepted
3 at 2 status files 2 open 0 unready 2
5 at 1 accepted
6 at 2 status files 2 open 0 unready 2
"#,
        ],
    },
    // The last section comes after the lanes, with the seat 0. A settle goes in before or after a write beside it.
    Lawful {
        script: r#"create A.java ""
lane
write A.java "class A {}"
lane
settle
finally
class A
write A.java "x"
status
"#,
        transcripts: &[
            r#"history 4
1 0 1 create A.java 0
2 1 3 write A.java 10
3 2 5 intake 1 2
4 0 8 write A.java 1
1 at 1 accepted
3 at 2 accepted
5 at 3 smart
7 at 3 rows 1
  A.java:1:7 class A
8 at 4 accepted
9 at 4 status files 1 open 0 unready 1
"#,
            r#"history 4
1 0 1 create A.java 0
2 2 5 intake 1 1
3 1 3 write A.java 10
4 0 8 write A.java 1
1 at 1 accepted
3 at 3 accepted
5 at 2 smart
7 at 3 not-ready A.java
8 at 4 accepted
9 at 4 status files 1 open 0 unready 1
"#,
        ],
    },
    // Where nobody writes, soft questions of two lanes answer as the plain ones.
    Lawful {
        script: r#"create A.java "class A {}"
settle
lane
soft 1 class A
lane
soft 2 word A
"#,
        transcripts: &[
            r#"history 2
1 0 1 create A.java 10
2 0 2 intake 1 1
1 at 1 accepted
2 at 2 smart
4 at 2 rows 1
  A.java:1:7 class A
6 at 2 rows 1
  A.java code
"#,
        ],
    },
    // Beside a write a soft question is answered before or after it, or given up.
    Lawful {
        script: r#"create A.java "class A {}"
settle
lane
soft 1 class A
lane
write A.java "class B {}"
"#,
        transcripts: &[
            r#"history 3
1 0 1 create A.java 10
2 0 2 intake 1 1
3 2 6 write A.java 10
1 at 1 accepted
2 at 2 smart
4 at 2 rows 1
  A.java:1:7 class A
6 at 3 accepted
"#,
            r#"history 3
1 0 1 create A.java 10
2 0 2 intake 1 1
3 2 6 write A.java 10
1 at 1 accepted
2 at 2 smart
4 at 3 not-ready A.java
6 at 3 accepted
"#,
            r#"history 3
1 0 1 create A.java 10
2 0 2 intake 1 1
3 2 6 write A.java 10
1 at 1 accepted
2 at 2 smart
4 cancelled 1
6 at 3 accepted
"#,
        ],
    },
];

#[test]
fn one_of_the_lawful_transcripts(rt: HostRuntime) -> Result<(), Fail> {
    assert_eq!(rt; unlawful_transcript(&rt)?, None);
    Ok(())
}

/// The first transcript that isn't lawful, or nothing. It may block.
fn unlawful_transcript<R: Threads + Wait + Sync + AllocGlobal>(
    rt: &R,
) -> Result<Option<String>, AllocError> {
    for lawful in &SCRIPTS {
        for _time in 0..TIMES {
            let written = written(rt, &["ide"], lawful.script)?;
            if !is_among(&written, lawful.transcripts) {
                return Ok(Some(written));
            }
        }
    }
    Ok(None)
}

/// Whether a text is one of these.
pub fn is_among(text: &str, known: &[&str]) -> bool {
    known.iter().any(|one| *one == text)
}

/// Each lane writes and asks about a file of its own.
static APART: &str = r#"lane
create A.java "class A {}"
outline A.java
write A.java "enum A {}"
outline A.java
lane
create B.java "class B {}"
outline B.java
delete B.java
outline B.java
finally
settle
class A
status
"#;

/// Its records without the prefixes at which they hold.
static ANSWERS: &str = r#"2 accepted
3 rows 1
  A.java:1:7 class A
4 accepted
5 rows 1
  A.java:1:6 enum A
7 accepted
8 rows 1
  B.java:1:7 class B
9 accepted
10 refused no-such-file
12 smart
13 rows 1
  A.java:1:6 enum A
14 status files 1 open 0 unready 0
"#;

static SECTIONS: [Section; 3] = [
    Section {
        seat: 1,
        last_line: 5,
    },
    Section {
        seat: 2,
        last_line: 10,
    },
    Section {
        seat: 0,
        last_line: 14,
    },
];

/// With any number of workers, each lane reads back what it wrote, and each accepted write is the entry that it names.
#[test]
fn lanes_read_back(rt: HostRuntime) -> Result<(), Fail> {
    assert_eq!(rt; wrongly_read_back(&rt)?, None);
    Ok(())
}

/// The first transcript in which a lane doesn't read back what it wrote, or nothing. It may block.
fn wrongly_read_back<R: Threads + Wait + Sync + AllocGlobal>(
    rt: &R,
) -> Result<Option<String>, AllocError> {
    for workers in ["0", "1", "2", "8"] {
        let written = written(rt, &["ide", "play", "--workers", workers], APART)?;
        if !is_read_back(rt.alloc(), &written)? {
            return Ok(Some(written));
        }
    }
    Ok(None)
}

/// Whether a transcript has these records, in order.
fn is_read_back(alloc: Global, written: &str) -> Result<bool, AllocError> {
    let told = records_of(alloc, written, &SECTIONS)?;
    Ok(told.is_in_order && told.answers.as_str() == ANSWERS)
}

/// Two loads, of which the second is no text, and a file that is created.
static LOADS: &str =
    "load A.java\nload B.java\ncreate C.java \"class C {}\"\nlane\nstatus\nfinally\nsettle\nclass A\nclass C\nstatus\n";

/// The words of plays with workers, with a store of the first file and without one.
static WAYS: [&[&str]; 2] = [
    &["ide", "play", "--workers", "3"],
    &["ide", "play", "--workers", "3", "--store", "A.store"],
];

/// A load's file is indexed by the workers or the settle, from a store or anew. The last section finds it, whoever did.
#[test]
fn workers_index_what_was_loaded(rt: HostRuntime) -> Result<(), Fail> {
    assert_eq!(rt; wrongly_indexed(&rt)?, None);
    Ok(())
}

/// The first transcript that hasn't what was loaded, or nothing. It may block.
fn wrongly_indexed<R: Threads + Wait + Sync + AllocGlobal>(
    rt: &R,
) -> Result<Option<String>, AllocError> {
    for words in &WAYS {
        for _time in 0..TIMES {
            let written = written(rt, words, LOADS)?;
            if !is_indexed(rt.alloc(), &written)? {
                return Ok(Some(written));
            }
        }
    }
    Ok(None)
}

/// Whether a transcript of these loads has the file that is no text, and finds both others at its end.
fn is_indexed(alloc: Global, written: &str) -> Result<bool, AllocError> {
    let entries = entries_of(written);
    let last = format!(in alloc;
        "\n7 at {entries} smart\n8 at {entries} rows 1\n  A.java:1:7 class A\n9 at {entries} rows 1\n  C.java:1:7 class C\n"
    )?;
    let status = format!(in alloc; "\n10 at {entries} status files 2 open 0 unready 0\n")?;
    Ok(
        written.contains("\n2 not-text 0\n3 at 2 accepted\n")
            && written.contains(last.as_str())
            && written.ends_with(status.as_str()),
    )
}

/// A demo has one summary, with any number of workers.
#[test]
fn demos_agree(rt: HostRuntime) -> Result<(), Fail> {
    assert_eq!(rt; other_demo(&rt)?, None);
    Ok(())
}

/// The first summary of a demo with workers that isn't the one without, or nothing. It may block.
fn other_demo<R: Threads + Wait + Sync + AllocGlobal>(
    rt: &R,
) -> Result<Option<String>, AllocError> {
    let alone = written(rt, &["ide", "demo", "--edits", "200"], "")?;
    other_demo_than(rt, &alone)
}

/// The same, where this is the one without.
fn other_demo_than<R: Threads + Wait + Sync + AllocGlobal>(
    rt: &R,
    alone: &str,
) -> Result<Option<String>, AllocError> {
    for workers in ["0", "1", "2", "5", "8"] {
        let words = ["ide", "demo", "--edits", "200", "--workers", workers];
        let beside = written(rt, &words, "")?;
        if beside.as_str() != alone {
            return Ok(Some(beside));
        }
    }
    Ok(None)
}

/// What a check says of a transcript of so many bytes: of one as long as a file may be, and of one that is longer.
static LONG: [(usize, &str); 2] = [
    (16_777_216, "ide: bad transcript\n"),
    (16_777_217, "ide: tree fault\n"),
];

#[test]
fn transcript_too_long(rt: HostRuntime) -> Result<(), Fail> {
    assert_eq!(rt; told_rightly(&rt)?, LONG.len());
    Ok(())
}

/// Of how many of these transcripts what is said is what is wanted, up to the first of which it isn't. It may block.
fn told_rightly<R: Threads + Wait + Sync + AllocGlobal>(rt: &R) -> Result<usize, AllocError> {
    let mut right = 0usize;
    for (count, line) in &LONG {
        if checked_long(rt, *count)?.as_str() != *line {
            return Ok(right);
        }
        right = right.saturating_add(1);
    }
    Ok(right)
}
