//! Scenes: scripts whose threads are held where they are to meet, with the transcripts that may come out.
use crate::running::Scene;
use crate::stage::{Hold, Spot};

/// Holds a lane until a worker has made index data, and the worker until the lane has ended.
pub const UNDER_JOB: [Hold; 2] = [
    Hold {
        at: Spot::Start(3),
        until: Spot::Made,
        times: 1,
    },
    Hold {
        at: Spot::Made,
        until: Spot::Ended(1),
        times: 1,
    },
];

/// Two lanes that each create a file and count the files.
const TWO_WRITE: &str = r#"lane
create A.java "class A {}"
status
lane
create B.java "class B {}"
status
"#;

/// Scripts whose threads are held where they are to meet, each with the transcripts that may come out.
pub static SCENES: [Scene; 10] = [
    // Two lanes that ask, each held with its read open until the other's is open too.
    Scene {
        script: r#"create A.java "class A {}"
lane
status
lane
status
"#,
        workers: 0,
        holds: &[
            Hold {
                at: Spot::Reading(1),
                until: Spot::Reading(2),
                times: 1,
            },
            Hold {
                at: Spot::Reading(2),
                until: Spot::Reading(1),
                times: 1,
            },
        ],
        tells_workers: false,
        printed: &[
            r#"history 1
1 0 1 create A.java 10
1 at 1 accepted
3 at 1 status files 1 open 0 unready 1
5 at 1 status files 1 open 0 unready 1
"#,
        ],
    },
    // A lane that is held until a worker has made the index data of the one file.
    Scene {
        script: r#"create A.java "class A {}"
lane
outline A.java
finally
class A
"#,
        workers: 1,
        holds: &[Hold {
            at: Spot::Start(3),
            until: Spot::Made,
            times: 1,
        }],
        tells_workers: false,
        printed: &[
            r#"history 2
1 0 1 create A.java 10
2 2 0 intake 1 1
1 at 1 accepted
3 at 1 rows 1
  A.java:1:7 class A
5 at 2 rows 1
  A.java:1:7 class A
"#,
            r#"history 2
1 0 1 create A.java 10
2 2 0 intake 1 1
1 at 1 accepted
3 at 2 rows 1
  A.java:1:7 class A
5 at 2 rows 1
  A.java:1:7 class A
"#,
        ],
    },
    // A worker that is held, its index data made, until the file was written.
    Scene {
        script: r#"create A.java "class A {}"
lane
write A.java "class B {}"
finally
class A
class B
"#,
        workers: 1,
        holds: &UNDER_JOB,
        tells_workers: true,
        printed: &[
            r#"history 3
1 0 1 create A.java 10
2 1 3 write A.java 10
3 2 0 intake 1 2
1 at 1 accepted
3 at 2 accepted
5 at 3 rows 0
6 at 3 rows 1
  A.java:1:7 class B
worker 2 took 1 in 3 turns
"#,
        ],
    },
    // A worker that is held, its index data made, until the file was deleted.
    Scene {
        script: r#"create A.java "class A {}"
lane
delete A.java
finally
class A
"#,
        workers: 1,
        holds: &UNDER_JOB,
        tells_workers: true,
        printed: &[
            r#"history 2
1 0 1 create A.java 10
2 1 3 delete A.java
1 at 1 accepted
3 at 2 accepted
5 at 2 rows 0
worker 2 took 0 in 2 turns
"#,
        ],
    },
    // Two workers, each held until both have made index data of the same file.
    Scene {
        script: r#"create A.java "class A {}"
finally
class A
word A
"#,
        workers: 2,
        holds: &[Hold {
            at: Spot::Made,
            until: Spot::Made,
            times: 2,
        }],
        tells_workers: false,
        printed: &[
            r#"history 3
1 0 1 create A.java 10
2 1 0 intake 1 1
3 2 0 intake 1 1
1 at 1 accepted
3 at 3 rows 1
  A.java:1:7 class A
4 at 3 rows 1
  A.java code
"#,
            r#"history 3
1 0 1 create A.java 10
2 2 0 intake 1 1
3 1 0 intake 1 1
1 at 1 accepted
3 at 3 rows 1
  A.java:1:7 class A
4 at 3 rows 1
  A.java code
"#,
        ],
    },
    // A soft question beside an empty lane, while nobody writes.
    Scene {
        script: r#"create A.java "class A {}"
settle
lane
soft 2 class A
class A
lane
"#,
        workers: 0,
        holds: &[],
        tells_workers: false,
        printed: &[
            r#"history 2
1 0 1 create A.java 10
2 0 2 intake 1 1
1 at 1 accepted
2 at 2 smart
4 at 2 rows 1
  A.java:1:7 class A
5 at 2 rows 1
  A.java:1:7 class A
"#,
        ],
    },
    // The second lane waits for the end of the first.
    Scene {
        script: TWO_WRITE,
        workers: 0,
        holds: &[Hold {
            at: Spot::Start(5),
            until: Spot::Ended(1),
            times: 1,
        }],
        tells_workers: false,
        printed: &[
            r#"history 2
1 1 2 create A.java 10
2 2 5 create B.java 10
2 at 1 accepted
3 at 1 status files 1 open 0 unready 1
5 at 2 accepted
6 at 2 status files 2 open 0 unready 2
"#,
        ],
    },
    // The first lane creates, then the second does, and then both ask.
    Scene {
        script: TWO_WRITE,
        workers: 0,
        holds: &[
            Hold {
                at: Spot::Start(5),
                until: Spot::Start(3),
                times: 1,
            },
            Hold {
                at: Spot::Start(3),
                until: Spot::Start(6),
                times: 1,
            },
        ],
        tells_workers: false,
        printed: &[
            r#"history 2
1 1 2 create A.java 10
2 2 5 create B.java 10
2 at 1 accepted
3 at 2 status files 2 open 0 unready 2
5 at 2 accepted
6 at 2 status files 2 open 0 unready 2
"#,
        ],
    },
    // The second lane creates, then the first does, and then both ask.
    Scene {
        script: TWO_WRITE,
        workers: 0,
        holds: &[
            Hold {
                at: Spot::Start(2),
                until: Spot::Start(6),
                times: 1,
            },
            Hold {
                at: Spot::Start(6),
                until: Spot::Start(3),
                times: 1,
            },
        ],
        tells_workers: false,
        printed: &[
            r#"history 2
1 2 5 create B.java 10
2 1 2 create A.java 10
2 at 2 accepted
3 at 2 status files 2 open 0 unready 2
5 at 1 accepted
6 at 2 status files 2 open 0 unready 2
"#,
        ],
    },
    // The first lane waits for the end of the second.
    Scene {
        script: TWO_WRITE,
        workers: 0,
        holds: &[Hold {
            at: Spot::Start(2),
            until: Spot::Ended(2),
            times: 1,
        }],
        tells_workers: false,
        printed: &[
            r#"history 2
1 2 5 create B.java 10
2 1 2 create A.java 10
2 at 2 accepted
3 at 2 status files 2 open 0 unready 2
5 at 1 accepted
6 at 1 status files 1 open 0 unready 1
"#,
        ],
    },
];

/// A script that is played, and another as whose run it is not to pass.
#[derive(Clone, Copy)]
pub struct Mistake {
    pub played: &'static str,
    pub judged: &'static str,
}

/// Scripts that differ in one command.
pub static MISTAKES: [Mistake; 13] = [
    // Another text, longer by a character.
    Mistake {
        played: "create A.java \"a\"\n",
        judged: "create A.java \"ab\"\n",
    },
    // Another text of the same length, whose words are others.
    Mistake {
        played: "create A.java \"a\"\nsettle\nword a\n",
        judged: "create A.java \"b\"\nsettle\nword a\n",
    },
    // Another path.
    Mistake {
        played: "create A.java \"a\"\n",
        judged: "create B.java \"a\"\n",
    },
    // Another kind of change.
    Mistake {
        played: "create A.java \"a\"\nopen A.java\ncommit A.java\n",
        judged: "create A.java \"a\"\nopen A.java\nsave A.java\n",
    },
    // A change for a question.
    Mistake {
        played: "create A.java \"a\"\nstatus\n",
        judged: "create A.java \"a\"\ndelete A.java\n",
    },
    // Another name that is asked for.
    Mistake {
        played: "create A.java \"class A {} class B {}\"\nsettle\nclass A\n",
        judged: "create A.java \"class A {} class B {}\"\nsettle\nclass B\n",
    },
    // Another question with a row of the same place, which also tells its super.
    Mistake {
        played: "create A.java \"class B extends A {}\"\nsettle\nclass B\n",
        judged: "create A.java \"class B extends A {}\"\nsettle\noutline A.java\n",
    },
    // Another word, which stands elsewhere.
    Mistake {
        played: "create A.java \"a // b\"\nsettle\nword a\n",
        judged: "create A.java \"a // b\"\nsettle\nword b\n",
    },
    // A refusal for another reason.
    Mistake {
        played: "create A.java \"a\"\ncreate A.java \"a\"\n",
        judged: "create A.java \"a\"\nwrite B.java \"a\"\n",
    },
    // A refusal at another place of a group.
    Mistake {
        played: "group\ncreate A.java \"a\"\nopen B.java\nend\n",
        judged: "group\nopen B.java\ncreate A.java \"a\"\nend\n",
    },
    // A group in another order.
    Mistake {
        played: "group\ncreate A.java \"a\"\ncreate B.java \"a\"\nend\n",
        judged: "group\ncreate B.java \"a\"\ncreate A.java \"a\"\nend\n",
    },
    // A line of its own in between.
    Mistake {
        played: "create A.java \"a\"\nstatus\n",
        judged: "create A.java \"a\"\n\nstatus\n",
    },
    // A lane for the last section.
    Mistake {
        played: "lane\ncreate A.java \"a\"\n",
        judged: "finally\ncreate A.java \"a\"\n",
    },
];
