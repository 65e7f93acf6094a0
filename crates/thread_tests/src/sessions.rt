//! Scripts without lanes: each has one transcript.

/// Files that are loaded, made, written, moved and deleted, with their refusals; documents; groups; questions of all forms;
/// and a last section.
pub static SESSIONS: [&str; 6] = [
    r#"load L.java
load M.java
load ../x
load L.java
create A.java "class A {}"
create A.java "x"
write B.java "x"
write A.java "class B {}\n"
move A.java notes.txt
move L.java notes.txt
delete L.java
delete L.java
status
"#,
    r#"create A.java "class A {}"
open A.java
open A.java
insert A.java 6 "Bc"
insert A.java 13 "x"
erase A.java 8 9
erase A.java 3 2
write A.java "x"
class Bc
close A.java
commit A.java
class Bc
save A.java
close A.java
save A.java
outline A.java
"#,
    r#"create A.java "class A {}"
create B.java "class B {}"
group
move A.java C.java
move B.java A.java
move C.java B.java
end
group
write A.java "x"
open A.java
insert A.java 2 "y"
end
word A
settle
class A
settle
"#,
    r#"# Questions about names.
create Shape.java "interface Shape { Shape grown(int by); } // a Shape"

create Round.java "class Round implements Shape {} class Ball extends Round {}"
settle
class Shape
supers Shape
method grown
word Shape
usages Shape
inheritors Shape
soft 3 class Ball
"#,
    r#"create Round.java "class Round implements Shape { int by; }"
create P.properties "a.b = 1\nc : 2\na.b = 3"
key "c"
settle
key "a.b"
outline Round.java
outline Cube.java
soft 1 outline Cube.java
soft 2 key "c"
status
"#,
    r#"create A.java "class A {}"
finally
class A
settle
class A
write A.java "enum A { B }"
outline A.java
soft 2 class A
delete A.java
status
"#,
];
