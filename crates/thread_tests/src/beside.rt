//! Which transcripts a script with lanes or workers may have: what lies one change apart, and what doesn't.

/// A script, its workers, transcripts that it may have, and texts that are none. Each transcript that is one change apart
/// from one of these is one of these.
pub struct Judged {
    pub script: &'static str,
    pub workers: u32,
    pub good: &'static [&'static str],
    pub bad: &'static [&'static str],
}

/// Two lanes that each create a file and count the files.
const TWO_WRITE: &str = r#"lane
create A.java "class A {}"
status
lane
create B.java "class B {}"
status
"#;

/// Two files are created and settled beside the create of a third.
const SETTLE_BESIDE: &str = r#"create A.java "class A {}"
create B.java "class B {}"
lane
settle
lane
create notes.txt "x"
"#;

/// Scripts with lanes or workers, each with the transcripts that it may have, and texts one change apart that are none.
pub static JUDGED: [Judged; 17] = [
    // A lane that asks has seen any of what another one did, and no less by its next question.
    Judged {
        script: r#"lane
create A.java ""
lane
status
status
"#,
        workers: 0,
        good: &[
            r#"history 1
1 1 2 create A.java 0
2 at 1 accepted
4 at 0 status files 0 open 0 unready 0
5 at 0 status files 0 open 0 unready 0
"#,
            r#"history 1
1 1 2 create A.java 0
2 at 1 accepted
4 at 0 status files 0 open 0 unready 0
5 at 1 status files 1 open 0 unready 1
"#,
            r#"history 1
1 1 2 create A.java 0
2 at 1 accepted
4 at 1 status files 1 open 0 unready 1
5 at 1 status files 1 open 0 unready 1
"#,
        ],
        bad: &[
            // The second question has seen less.
            r#"history 1
1 1 2 create A.java 0
2 at 1 accepted
4 at 1 status files 1 open 0 unready 1
5 at 0 status files 0 open 0 unready 0
"#,
            // The counts are those of another length of the history.
            r#"history 1
1 1 2 create A.java 0
2 at 1 accepted
4 at 0 status files 1 open 0 unready 1
5 at 1 status files 1 open 0 unready 1
"#,
            // The history was never so long.
            r#"history 1
1 1 2 create A.java 0
2 at 1 accepted
4 at 1 status files 1 open 0 unready 1
5 at 2 status files 2 open 0 unready 2
"#,
        ],
    },
    // A refusal holds before and after what another lane did.
    Judged {
        script: r#"lane
create A.java ""
lane
open C.java
"#,
        workers: 0,
        good: &[
            r#"history 1
1 1 2 create A.java 0
2 at 1 accepted
4 at 0 refused no-such-file
"#,
            r#"history 1
1 1 2 create A.java 0
2 at 1 accepted
4 at 1 refused no-such-file
"#,
        ],
        bad: &[
            // For another reason.
            r#"history 1
1 1 2 create A.java 0
2 at 1 accepted
4 at 1 refused already-open
"#,
        ],
    },
    // A refusal holds behind what another lane did alone; before that, the change is accepted.
    Judged {
        script: r#"create A.java ""
lane
delete A.java
lane
open A.java
"#,
        workers: 0,
        good: &[
            r#"history 2
1 0 1 create A.java 0
2 1 3 delete A.java
1 at 1 accepted
3 at 2 accepted
5 at 2 refused no-such-file
"#,
            r#"history 3
1 0 1 create A.java 0
2 2 5 open A.java
3 1 3 delete A.java
1 at 1 accepted
3 at 3 accepted
5 at 2 accepted
"#,
        ],
        bad: &[
            // The file is opened behind its end.
            r#"history 3
1 0 1 create A.java 0
2 1 3 delete A.java
3 2 5 open A.java
1 at 1 accepted
3 at 2 accepted
5 at 3 accepted
"#,
        ],
    },
    // A reply holds before and after what another lane did, and no lane has seen less than the prelude left.
    Judged {
        script: r#"create A.java "class A {}"
settle
lane
class A
lane
create notes.txt "x"
"#,
        workers: 0,
        good: &[
            r#"history 3
1 0 1 create A.java 10
2 0 2 intake 1 1
3 2 6 create notes.txt 1
1 at 1 accepted
2 at 2 smart
4 at 2 rows 1
  A.java:1:7 class A
6 at 3 accepted
"#,
            r#"history 3
1 0 1 create A.java 10
2 0 2 intake 1 1
3 2 6 create notes.txt 1
1 at 1 accepted
2 at 2 smart
4 at 3 rows 1
  A.java:1:7 class A
6 at 3 accepted
"#,
        ],
        bad: &[
            // It has not seen the settle of the prelude.
            r#"history 3
1 0 1 create A.java 10
2 0 2 intake 1 1
3 2 6 create notes.txt 1
1 at 1 accepted
2 at 2 smart
4 at 1 not-ready A.java
6 at 3 accepted
"#,
        ],
    },
    // Two lanes that write and ask. The transcripts that they may have stand in `lanes`.
    Judged {
        script: TWO_WRITE,
        workers: 0,
        good: &[],
        bad: &[
            // The second lane hasn't seen its own entry.
            r#"history 2
1 1 2 create A.java 10
2 2 5 create B.java 10
2 at 1 accepted
3 at 1 status files 1 open 0 unready 1
5 at 2 accepted
6 at 1 status files 1 open 0 unready 1
"#,
            // The seats have changed places.
            r#"history 2
1 2 2 create A.java 10
2 1 5 create B.java 10
2 at 1 accepted
3 at 1 status files 1 open 0 unready 1
5 at 2 accepted
6 at 2 status files 2 open 0 unready 2
"#,
            // Each record names the entry of the other lane.
            r#"history 2
1 1 2 create A.java 10
2 2 5 create B.java 10
2 at 2 accepted
3 at 2 status files 2 open 0 unready 2
5 at 1 accepted
6 at 2 status files 2 open 0 unready 2
"#,
            // The second create has no entry.
            r#"history 1
1 1 2 create A.java 10
2 at 1 accepted
3 at 1 status files 1 open 0 unready 1
5 at 1 accepted
6 at 1 status files 1 open 0 unready 1
"#,
            // An entry stands twice.
            r#"history 3
1 1 2 create A.java 10
2 1 2 create A.java 10
3 2 5 create B.java 10
2 at 1 accepted
3 at 2 status files 1 open 0 unready 1
5 at 3 accepted
6 at 3 status files 2 open 0 unready 2
"#,
            // The lanes' records have changed places.
            r#"history 2
1 1 2 create A.java 10
2 2 5 create B.java 10
5 at 2 accepted
6 at 2 status files 2 open 0 unready 2
2 at 1 accepted
3 at 1 status files 1 open 0 unready 1
"#,
        ],
    },
    // A settle takes in all that is unready, with nothing in between.
    Judged {
        script: SETTLE_BESIDE,
        workers: 0,
        good: &[
            r#"history 5
1 0 1 create A.java 10
2 0 2 create B.java 10
3 1 4 intake 1 1
4 1 4 intake 2 2
5 2 6 create notes.txt 1
1 at 1 accepted
2 at 2 accepted
4 at 4 smart
6 at 5 accepted
"#,
            r#"history 5
1 0 1 create A.java 10
2 0 2 create B.java 10
3 2 6 create notes.txt 1
4 1 4 intake 1 1
5 1 4 intake 2 2
1 at 1 accepted
2 at 2 accepted
4 at 5 smart
6 at 3 accepted
"#,
        ],
        bad: &[
            // The create stands within the settle.
            r#"history 5
1 0 1 create A.java 10
2 0 2 create B.java 10
3 1 4 intake 1 1
4 2 6 create notes.txt 1
5 1 4 intake 2 2
1 at 1 accepted
2 at 2 accepted
4 at 5 smart
6 at 4 accepted
"#,
            // The file with the higher id goes in first.
            r#"history 5
1 0 1 create A.java 10
2 0 2 create B.java 10
3 1 4 intake 2 2
4 1 4 intake 1 1
5 2 6 create notes.txt 1
1 at 1 accepted
2 at 2 accepted
4 at 4 smart
6 at 5 accepted
"#,
            // One of the two files isn't taken in.
            r#"history 4
1 0 1 create A.java 10
2 0 2 create B.java 10
3 1 4 intake 1 1
4 2 6 create notes.txt 1
1 at 1 accepted
2 at 2 accepted
4 at 3 smart
6 at 4 accepted
"#,
            // Nor is the other.
            r#"history 3
1 0 1 create A.java 10
2 0 2 create B.java 10
3 2 6 create notes.txt 1
1 at 1 accepted
2 at 2 accepted
4 at 2 smart
6 at 3 accepted
"#,
            // A worker takes one in, where there is none.
            r#"history 5
1 0 1 create A.java 10
2 0 2 create B.java 10
3 3 0 intake 1 1
4 1 4 intake 2 2
5 2 6 create notes.txt 1
1 at 1 accepted
2 at 2 accepted
4 at 4 smart
6 at 5 accepted
"#,
        ],
    },
    // The same beside a worker, which may take in what the settle then finds ready, and nothing within the settle.
    Judged {
        script: SETTLE_BESIDE,
        workers: 1,
        good: &[
            r#"history 5
1 0 1 create A.java 10
2 0 2 create B.java 10
3 3 0 intake 1 1
4 1 4 intake 2 2
5 2 6 create notes.txt 1
1 at 1 accepted
2 at 2 accepted
4 at 4 smart
6 at 5 accepted
"#,
            r#"history 5
1 0 1 create A.java 10
2 0 2 create B.java 10
3 3 0 intake 2 2
4 3 0 intake 1 1
5 2 6 create notes.txt 1
1 at 1 accepted
2 at 2 accepted
4 at 4 smart
6 at 5 accepted
"#,
            r#"history 5
1 0 1 create A.java 10
2 0 2 create B.java 10
3 3 0 intake 2 2
4 3 0 intake 1 1
5 2 6 create notes.txt 1
1 at 1 accepted
2 at 2 accepted
4 at 5 smart
6 at 5 accepted
"#,
        ],
        bad: &[
            // The worker takes one in within the settle.
            r#"history 5
1 0 1 create A.java 10
2 0 2 create B.java 10
3 1 4 intake 1 1
4 3 0 intake 2 2
5 2 6 create notes.txt 1
1 at 1 accepted
2 at 2 accepted
4 at 4 smart
6 at 5 accepted
"#,
        ],
    },
    // A worker takes in what is unready, or what a settle took in before, or nothing.
    Judged {
        script: r#"create A.java "class A {}"
lane
settle
"#,
        workers: 1,
        good: &[
            r#"history 2
1 0 1 create A.java 10
2 1 3 intake 1 1
1 at 1 accepted
3 at 2 smart
"#,
            r#"history 2
1 0 1 create A.java 10
2 2 0 intake 1 1
1 at 1 accepted
3 at 2 smart
"#,
            r#"history 3
1 0 1 create A.java 10
2 1 3 intake 1 1
3 2 0 intake 1 1
1 at 1 accepted
3 at 2 smart
"#,
        ],
        bad: &[
            // Twice at one stamp.
            r#"history 3
1 0 1 create A.java 10
2 2 0 intake 1 1
3 2 0 intake 1 1
1 at 1 accepted
3 at 2 smart
"#,
            // Before the file is there.
            r#"history 2
1 2 0 intake 1 1
2 0 1 create A.java 10
1 at 2 accepted
3 at 2 smart
"#,
        ],
    },
    // A worker takes a file in at its present stamp: before a write, behind it, or both.
    Judged {
        script: r#"create A.java "class A {}"
lane
write A.java "class B {}"
finally
class B
"#,
        workers: 1,
        good: &[
            r#"history 2
1 0 1 create A.java 10
2 1 3 write A.java 10
1 at 1 accepted
3 at 2 accepted
5 at 2 not-ready A.java
"#,
            r#"history 3
1 0 1 create A.java 10
2 2 0 intake 1 1
3 1 3 write A.java 10
1 at 1 accepted
3 at 3 accepted
5 at 3 not-ready A.java
"#,
            r#"history 3
1 0 1 create A.java 10
2 1 3 write A.java 10
3 2 0 intake 1 2
1 at 1 accepted
3 at 2 accepted
5 at 3 rows 1
  A.java:1:7 class B
"#,
            r#"history 4
1 0 1 create A.java 10
2 2 0 intake 1 1
3 1 3 write A.java 10
4 2 0 intake 1 2
1 at 1 accepted
3 at 3 accepted
5 at 4 rows 1
  A.java:1:7 class B
"#,
        ],
        bad: &[
            // At a stamp that is past.
            r#"history 3
1 0 1 create A.java 10
2 1 3 write A.java 10
3 2 0 intake 1 1
1 at 1 accepted
3 at 2 accepted
5 at 3 not-ready A.java
"#,
        ],
    },
    // Two workers: either, both or none takes the file in, and the last section has seen it.
    Judged {
        script: r#"create A.java "class A {}"
finally
class A
"#,
        workers: 2,
        good: &[
            r#"history 1
1 0 1 create A.java 10
1 at 1 accepted
3 at 1 not-ready A.java
"#,
            r#"history 2
1 0 1 create A.java 10
2 1 0 intake 1 1
1 at 1 accepted
3 at 2 rows 1
  A.java:1:7 class A
"#,
            r#"history 2
1 0 1 create A.java 10
2 2 0 intake 1 1
1 at 1 accepted
3 at 2 rows 1
  A.java:1:7 class A
"#,
            r#"history 3
1 0 1 create A.java 10
2 1 0 intake 1 1
3 2 0 intake 1 1
1 at 1 accepted
3 at 3 rows 1
  A.java:1:7 class A
"#,
            r#"history 3
1 0 1 create A.java 10
2 2 0 intake 1 1
3 1 0 intake 1 1
1 at 1 accepted
3 at 3 rows 1
  A.java:1:7 class A
"#,
        ],
        bad: &[
            // The last section has seen less than all.
            r#"history 2
1 0 1 create A.java 10
2 1 0 intake 1 1
1 at 1 accepted
3 at 1 not-ready A.java
"#,
        ],
    },
    // Nothing but the last section makes entries behind its begin.
    Judged {
        script: r#"create A.java "class A {}"
finally
create notes.txt "x"
"#,
        workers: 1,
        good: &[
            r#"history 3
1 0 1 create A.java 10
2 1 0 intake 1 1
3 0 3 create notes.txt 1
1 at 1 accepted
3 at 3 accepted
"#,
        ],
        bad: &[
            r#"history 3
1 0 1 create A.java 10
2 0 3 create notes.txt 1
3 1 0 intake 1 1
1 at 1 accepted
3 at 2 accepted
"#,
        ],
    },
    // A soft question of a lane beside which nothing runs is never given up.
    Judged {
        script: "lane\nsoft 1 status\n",
        workers: 0,
        good: &["history 0\n2 at 0 status files 0 open 0 unready 0\n"],
        bad: &["history 0\n2 cancelled 1\n"],
    },
    // Beside a worker it is, with so many attempts as it was allowed.
    Judged {
        script: "lane\nsoft 1 status\n",
        workers: 1,
        good: &[
            "history 0\n2 at 0 status files 0 open 0 unready 0\n",
            "history 0\n2 cancelled 1\n",
        ],
        bad: &["history 0\n2 at 0 cancelled 1\n"],
    },
    // And beside a lane, though that is empty.
    Judged {
        script: "lane\nsoft 2 status\nlane\n",
        workers: 0,
        good: &[
            "history 0\n2 at 0 status files 0 open 0 unready 0\n",
            "history 0\n2 cancelled 2\n",
        ],
        bad: &[],
    },
    // A question that isn't soft is always answered.
    Judged {
        script: "lane\nstatus\nlane\n",
        workers: 1,
        good: &["history 0\n2 at 0 status files 0 open 0 unready 0\n"],
        bad: &["history 0\n2 cancelled 1\n"],
    },
    // So is a soft one of the prelude and of the last section.
    Judged {
        script: "soft 1 status\nlane\nlane\nfinally\nsoft 1 status\n",
        workers: 2,
        good: &[
            "history 0\n1 at 0 status files 0 open 0 unready 0\n5 at 0 status files 0 open 0 unready 0\n",
        ],
        bad: &[
            "history 0\n1 cancelled 1\n5 at 0 status files 0 open 0 unready 0\n",
            "history 0\n1 at 0 status files 0 open 0 unready 0\n5 cancelled 1\n",
        ],
    },
    // Of a group all is seen, or nothing.
    Judged {
        script: r#"lane
group
create A.java ""
create B.java ""
end
lane
status
"#,
        workers: 0,
        good: &[
            r#"history 1
1 1 2 group 2
  create A.java 0
  create B.java 0
2 at 1 accepted
7 at 0 status files 0 open 0 unready 0
"#,
            r#"history 1
1 1 2 group 2
  create A.java 0
  create B.java 0
2 at 1 accepted
7 at 1 status files 2 open 0 unready 2
"#,
        ],
        bad: &[
            // Its first change alone.
            r#"history 1
1 1 2 group 2
  create A.java 0
  create B.java 0
2 at 1 accepted
7 at 1 status files 1 open 0 unready 1
"#,
            // Another second change.
            r#"history 1
1 1 2 group 2
  create A.java 0
  create C.java 0
2 at 1 accepted
7 at 1 status files 2 open 0 unready 2
"#,
        ],
    },
];
