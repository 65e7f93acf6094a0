//! Declarations. A line of `declarations` is a Java text, of which it is told each declaration: its kind, depth, line and column, name,
//! and supers. A line `TIMES PART` of `deep texts` stands for a text that is a part many times over, of which it is told how many
//! declarations it has, and `nested` where each is a class in the one before. A line of `copied names` is a text, of which it is told the
//! names in a copy of their list, each with `type` where it names one.
use crate::marks::{java_of, number_of, word_of};
use decl_parser::stubs;
use ide_text::Text;
use java_tokens::tokens;
use std::alloc::{AllocError, Global};
use stub_tree::{Names, Stub, StubKind, StubList};

/// Tells declarations.
pub fn tell(alloc: Global, line: &str, out: &mut String) -> Result<(), AllocError> {
    let text = java_of(alloc, line)?;
    push_list(out, &text, &listed(alloc, &text)?.copy()?)
}

/// Tells how many there are.
pub fn tell_deep(alloc: Global, line: &str, out: &mut String) -> Result<(), AllocError> {
    let (times, part) = word_of(line);
    let text = repeated(alloc, number_of(times), part)?;
    push_count(out, &listed(alloc, &text)?)
}

/// Tells names.
pub fn tell_copied(alloc: Global, line: &str, out: &mut String) -> Result<(), AllocError> {
    push_copied(alloc, out, &listed(alloc, &java_of(alloc, line)?)?)
}

/// The declarations of a text, from its tokens.
fn listed(alloc: Global, text: &Text) -> Result<StubList, AllocError> {
    stubs(alloc, text, tokens(alloc, text)?)
}

/// A text that is another, many times over.
fn repeated(alloc: Global, times: u32, part: &str) -> Result<Text, AllocError> {
    let mut line = String::new(alloc);
    for _ in 0..times {
        line.push_str(part)?;
    }
    java_of(alloc, line.as_str())
}

/// Adds each declaration.
fn push_list(out: &mut String, text: &Text, list: &StubList) -> Result<(), AllocError> {
    for stub in list.as_slice() {
        let (line, column) = text.line_col(stub.at.min(text.len()));
        let kind = kind_word(stub);
        let depth = stub.depth;
        write!(out, " {kind} {depth} {line}:{column} {}", stub.name)?;
        push_supers(out, stub)?;
        out.push(';')?;
    }
    Ok(())
}

/// Adds the supers of a declaration.
fn push_supers(out: &mut String, stub: &Stub) -> Result<(), AllocError> {
    if !stub.supers.is_empty() {
        out.push_str(" :")?;
    }
    for name in stub.supers.as_slice() {
        out.push(' ')?;
        out.push_str(name.as_str())?;
    }
    Ok(())
}

/// The words for kinds.
static WORDS: [(StubKind, &str); 9] = [
    (StubKind::Class, "class"),
    (StubKind::Interface, "interface"),
    (StubKind::Enum, "enum"),
    (StubKind::Record, "record"),
    (StubKind::Annotation, "annotation"),
    (StubKind::Method, "method"),
    (StubKind::Constructor, "constructor"),
    (StubKind::Field, "field"),
    (StubKind::Constant, "constant"),
];

/// The word for a kind.
fn kind_word(stub: &Stub) -> &'static str {
    for (kind, word) in &WORDS {
        if kind.code() == stub.kind {
            return word;
        }
    }
    "?"
}

/// Adds how many declarations there are, and whether each is a class in the one before.
fn push_count(out: &mut String, list: &StubList) -> Result<(), AllocError> {
    write!(out, " {}", list.len())?;
    out.push_str(if are_nested(list) { " nested" } else { "" })
}

/// Whether these are classes of one letter, each in the one before.
fn are_nested(list: &StubList) -> bool {
    for i in 0..list.len() {
        let stub = list.at(i);
        if u32::from(stub.depth) != i || stub.at != 6 + 8 * i || kind_word(stub) != "class" {
            return false;
        }
    }
    !list.is_empty()
}

/// Adds the names of a copy of their list, each with whether it names a type.
fn push_copied(alloc: Global, out: &mut String, list: &StubList) -> Result<(), AllocError> {
    let mut names = Names::new(alloc);
    for stub in list.as_slice() {
        names.push(stub.name.copy()?)?;
    }
    let copied = names.copy()?;
    for (name, stub) in copied.as_slice().iter().zip(list.as_slice()) {
        out.push(' ')?;
        out.push_str(name.as_str())?;
        out.push_str(if stub.is_type() { " type" } else { "" })?;
    }
    out.push_str(if copied.is_empty() { " none" } else { "" })
}
