//! What courses come to.
use crate::asked::{Asked, query_of};
use crate::calls::Edit;
use crate::courses::{Course, told};
use crate::looks::file_of_lines;
use crate::yielding::{Told, asked_beside};
use ide_text::Name;
use std::test::Fail;

/// Courses, and what they come to.
static COURSES: [(Course, &str); 32] = [
    // Index data go in only at the stamp at which they were made.
    (
        Course::Late {
            earlier: &[Edit::Create("class A {}")],
            file: 1,
            later: &[],
        },
        "taken, Some(1)",
    ),
    (
        Course::Late {
            earlier: &[Edit::Create("class A {}")],
            file: 1,
            later: &[Edit::Write("class B {}")],
        },
        "stale 1 2, None",
    ),
    (
        Course::Late {
            earlier: &[Edit::Create("class B {}")],
            file: 1,
            later: &[Edit::Delete, Edit::Create("class A {}")],
        },
        "no-such-file, None",
    ),
    (
        Course::Late {
            earlier: &[
                Edit::Create("class B {}"),
                Edit::Delete,
                Edit::Create("class A {}"),
            ],
            file: 1,
            later: &[],
        },
        "nothing, None",
    ),
    (
        Course::Late {
            earlier: &[
                Edit::Create("class B {}"),
                Edit::Delete,
                Edit::Create("class A {}"),
            ],
            file: 2,
            later: &[],
        },
        "taken, Some(1)",
    ),
    // A move to another kind: what was made by the kind before doesn't go in, and a file of properties that isn't indexed
    // keeps a question about types from its answer, as a Java file does; a file of no kind doesn't.
    (
        Course::Late {
            earlier: &[Edit::Create("class A {}")],
            file: 1,
            later: &[Edit::Move("A.java", "A.properties")],
        },
        "stale 1 2, None",
    ),
    (
        Course::Late {
            earlier: &[Edit::Create("class A {}")],
            file: 1,
            later: &[Edit::Move("A.java", "A.txt")],
        },
        "stale 1 2, Some(0)",
    ),
    // What is shown is what the kind gives that the file has now, whether it is open or not.
    (
        Course::Kinds {
            edits: &[Edit::Create("class A {}")],
        },
        "Some(1), 1, 0",
    ),
    (
        Course::Kinds {
            edits: &[
                Edit::Create("class A {}"),
                Edit::Move("A.java", "A.properties"),
            ],
        },
        "Some(0), 0, 1",
    ),
    (
        Course::Kinds {
            edits: &[
                Edit::Create("class A {}"),
                Edit::Open,
                Edit::Move("A.java", "A.properties"),
            ],
        },
        "Some(0), 0, 1",
    ),
    (
        Course::Kinds {
            edits: &[
                Edit::Create("class A {}"),
                Edit::Open,
                Edit::Move("A.java", "A.properties"),
                Edit::Close("A.properties"),
            ],
        },
        "Some(0), 0, 1",
    ),
    (
        Course::Kinds {
            edits: &[
                Edit::Create("class A {}"),
                Edit::Open,
                Edit::Move("A.java", "A.properties"),
                Edit::Move("A.properties", "A.java"),
                Edit::Close("A.java"),
            ],
        },
        "Some(1), 1, 0",
    ),
    (
        Course::Kinds {
            edits: &[
                Edit::Create("class A {}"),
                Edit::Open,
                Edit::Move("A.java", "A.txt"),
                Edit::Move("A.txt", "A.properties"),
            ],
        },
        "Some(0), 0, 1",
    ),
    (
        Course::Kinds {
            edits: &[
                Edit::Create("class A {}"),
                Edit::Open,
                Edit::Move("A.java", "A.properties"),
                Edit::Move("A.properties", "A.txt"),
            ],
        },
        "Some(0), 0, 0",
    ),
    (
        Course::Kinds {
            edits: &[
                Edit::Create("class A {}"),
                Edit::Open,
                Edit::Close("A.java"),
                Edit::Move("A.java", "A.txt"),
            ],
        },
        "Some(0), 0, 0",
    ),
    // A question looks as it begins, and after each 256 rows: 255, 256 and 600 of them.
    (
        Course::Looks {
            line: "class N {}\n",
            counts: &[255, 1, 344],
            asked: Asked::Class("N"),
        },
        "1 looks, Some(255); 1 looks, Some(255)\n2 looks, Some(256); 2 looks, None\n3 looks, Some(600); 2 looks, None\n",
    ),
    // One that asks where a name is used looks as it begins, and after each file that uses it.
    (
        Course::Looks {
            line: "class N {}\n",
            counts: &[255, 0, 1, 344],
            asked: Asked::Usages("N"),
        },
        "2 looks, Some(255); 2 looks, None\n2 looks, Some(255); 2 looks, None\n3 looks, Some(256); 2 looks, None\n4 looks, Some(600); 2 looks, None\n",
    ),
    // A name is used where it stands as an identifier: not in comments and strings, and not in a file that is no Java
    // file. Where it isn't used in a file that has the word, there is no look for the file.
    (
        Course::Reached {
            files: &[("A.java", "class A { A a; } // A \"A\"")],
            edits: &[],
            asked: Asked::Usages("A"),
        },
        "A.java:1:7; A.java:1:11; 2 looks",
    ),
    (
        Course::Reached {
            files: &[("A.java", "class A { A a; } // A \"A\"")],
            edits: &[],
            asked: Asked::Usages("class"),
        },
        "1 looks",
    ),
    (
        Course::Reached {
            files: &[
                ("A.java", "X\n X x X\n"),
                ("B.java", "/* X */ \"X\" 'X' \"\"\"X\"\"\" XX // X"),
                ("C.txt", "X"),
                ("D.java", "\u{e9} X"),
            ],
            edits: &[],
            asked: Asked::Usages("X"),
        },
        "A.java:1:1; A.java:2:2; A.java:2:6; D.java:1:3; 3 looks",
    ),
    // What a document has committed hides the content, and what it hasn't doesn't.
    (
        Course::Reached {
            files: &[("A.java", "class A {}")],
            edits: &[Edit::Open, Edit::Insert(0, "A\n")],
            asked: Asked::Usages("A"),
        },
        "A.java:1:7; 2 looks",
    ),
    (
        Course::Reached {
            files: &[("A.java", "class A {}")],
            edits: &[Edit::Open, Edit::Insert(0, "A\n"), Edit::Commit],
            asked: Asked::Usages("A"),
        },
        "A.java:1:1; A.java:2:7; 2 looks",
    ),
    (
        Course::Reached {
            files: &[("A.java", "class A {}")],
            edits: &[Edit::Open, Edit::Insert(6, "B"), Edit::Commit],
            asked: Asked::Usages("A"),
        },
        "1 looks",
    ),
    // The keys of property files, with a look after each 256 rows; no file but property files.
    (
        Course::Looks {
            line: "k=v\n",
            counts: &[255, 1, 344],
            asked: Asked::Key("k"),
        },
        "1 looks, Some(255); 1 looks, Some(255)\n2 looks, Some(256); 2 looks, None\n3 looks, Some(600); 2 looks, None\n",
    ),
    (
        Course::Reached {
            files: &[
                ("P.properties", "# x=1\na.b = 1\nc\\\n  d:2"),
                ("A.java", "a.b = 1"),
                (
                    "Q.properties",
                    "a\\.b\na\\u.b = a.b\n!a.b\n\\\n a.b:x\na.bc",
                ),
                ("R.txt", "a.b = 1"),
            ],
            edits: &[],
            asked: Asked::Key("a.b"),
        },
        "P.properties:2:1; Q.properties:1:1; Q.properties:5:2; 1 looks",
    ),
    (
        Course::Reached {
            files: &[("P.properties", "# x=1\na.b = 1\nc\\\n  d:2")],
            edits: &[],
            asked: Asked::Key("cd"),
        },
        "P.properties:3:1; 1 looks",
    ),
    // Types that come from a name, level by level, with a look after each 256 postings.
    (
        Course::Looks {
            line: "class T extends N {}\n",
            counts: &[255, 1, 344],
            asked: Asked::Inheritors("N"),
        },
        "1 looks, Some(255); 1 looks, Some(255)\n2 looks, Some(256); 2 looks, None\n3 looks, Some(600); 2 looks, None\n",
    ),
    (
        Course::Reached {
            files: &[(
                "A.java",
                "class B extends A {} class C extends B {} class A extends C {}",
            )],
            edits: &[],
            asked: Asked::Inheritors("A"),
        },
        "A.java:1:7 B 1; A.java:1:28 C 2; A.java:1:49 A 3; 1 looks",
    ),
    (
        Course::Reached {
            files: &[("A.java", "class A extends A {}")],
            edits: &[],
            asked: Asked::Inheritors("A"),
        },
        "A.java:1:7 A 1; 1 looks",
    ),
    // Two types of one name, of which one comes from it; by level, then file, then place; no file but Java files.
    (
        Course::Reached {
            files: &[
                ("A.java", "class N extends R {}\nclass M extends N {}"),
                (
                    "B.java",
                    "class K extends N {} class N {}\n class P extends K implements R {}",
                ),
                ("C.txt", "class Z extends R {}"),
            ],
            edits: &[],
            asked: Asked::Inheritors("R"),
        },
        "A.java:1:7 N 1; B.java:2:8 P 1; A.java:2:7 M 2; B.java:1:7 K 2; 1 looks",
    ),
    (
        Course::Reached {
            files: &[("A.java", "class B extends A {}")],
            edits: &[
                Edit::Open,
                Edit::Insert(0, "class X extends B {}\n"),
                Edit::Commit,
            ],
            asked: Asked::Inheritors("A"),
        },
        "A.java:2:7 B 1; A.java:1:7 X 2; 1 looks",
    ),
    // A share answers as the workspace of which it was made, whatever becomes of that.
    (
        Course::Shared {
            earlier: &[
                Edit::Create("class A {}"),
                Edit::Open,
                Edit::Insert(6, "B"),
                Edit::Commit,
            ],
            later: &[Edit::Insert(6, "C"), Edit::Commit],
        },
        "4 and 2 accepted; A Some(0) Some(0); BA Some(1) Some(0); CBA Some(0) Some(1);",
    ),
];

#[test]
fn courses(rt: HostRuntime) -> Result<(), Fail> {
    for (course, wanted) in &COURSES {
        assert_eq!(rt; told(rt.alloc(), *course)?.as_str(), *wanted);
    }
    Ok(())
}

/// A question about a file with so many times a line, asked of a workspace under the lock while a write is announced behind this look, if it
/// isn't 0, and how often it looks and how many rows it gives.
struct Beside {
    line: &'static str,
    count: u32,
    asked: Asked,
    announced_at: u64,
    wanted: Told,
}

/// A question looks once and after each 256 rows or types, also under the lock; the first look behind the announcement is its last.
static BESIDE: [Beside; 5] = [
    Beside {
        line: "class N {}\n",
        count: 20_000,
        asked: Asked::Class("N"),
        announced_at: 0,
        wanted: (79, Some(20_000)),
    },
    Beside {
        line: "class N {}\n",
        count: 20_000,
        asked: Asked::Class("N"),
        announced_at: 40,
        wanted: (41, None),
    },
    Beside {
        line: "class T extends N {}\n",
        count: 600,
        asked: Asked::Inheritors("N"),
        announced_at: 0,
        wanted: (3, Some(600)),
    },
    Beside {
        line: "class T extends N {}\n",
        count: 600,
        asked: Asked::Inheritors("N"),
        announced_at: 1,
        wanted: (2, None),
    },
    Beside {
        line: "class T extends N {}\n",
        count: 600,
        asked: Asked::Inheritors("N"),
        announced_at: 2,
        wanted: (3, None),
    },
];

#[test]
fn questions_end_at_the_look_that_sees_a_write(rt: HostRuntime) -> Result<(), Fail> {
    let alloc = rt.alloc();
    for beside in &BESIDE {
        let path = Name::of(alloc, "A.java")?;
        let change = file_of_lines(alloc, path, beside.line, beside.count)?;
        let query = query_of(alloc, beside.asked)?;
        match asked_beside(&rt, alloc, change, &query, beside.announced_at) {
            Ok(told) => assert_eq!(rt; told, Some(beside.wanted)),
            Err((_lock, _pass)) => panic!(rt; "the second pass has been met"),
        }
    }
    Ok(())
}
