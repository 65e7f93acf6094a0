//! Names. A line `FROM TO TEXT` of `names` tells the name between two offsets, as it is printed, its length, and `same` where it is
//! that of a copy, of its letters and of a string of them. A line of `order` is a name, of which it is told how it is compared with each
//! of the lines before it and with itself, `<`, `=` or `>`, or `?` where comparisons don't agree.
use crate::marks::{number_of, text_of, word_of};
use crate::tell::{Tell, tell_all};
use ide_text::{Name, Text};
use std::alloc::{AllocError, Global};
use std::cmp::Ordering;

/// Tells names.
pub fn tell(alloc: Global, line: &str, out: &mut String) -> Result<(), AllocError> {
    let (from, rest) = word_of(line);
    let (to, text) = word_of(rest);
    let text = text_of(alloc, text)?;
    let (from, to) = (number_of(from), number_of(to));
    if from > to || to > text.len() {
        return out.push_str(" no such range");
    }
    push_name(alloc, out, &Name::of_text(alloc, &text, from, to)?)
}

/// Adds a name, its length, and whether it is that of its copy and of its letters.
fn push_name(alloc: Global, out: &mut String, name: &Name) -> Result<(), AllocError> {
    write!(out, " <{name}> <{name:?}> {}", name.len())?;
    out.push_str(if name.is_empty() { " empty" } else { "" })?;
    out.push_str(if is_same(alloc, name)? { " same" } else { "" })
}

/// Whether a name is that of its copy, of its letters and of a string of them.
fn is_same(alloc: Global, name: &Name) -> Result<bool, AllocError> {
    let letters = Name::of(alloc, name.as_str())?;
    let string = Name::of_string(alloc, String::from_str(alloc, name.as_str())?)?;
    Ok(name.same(&name.copy()?) && name.same(&letters) && name.same(&string))
}

/// Compares names, of which none was named yet.
pub fn play_order(alloc: Global, lines: &str, out: &mut String) -> Result<(), AllocError> {
    let mut before = Before {
        names: Vec::new(alloc),
    };
    tell_all(alloc, &mut before, lines, out)
}

/// The names so far.
#[derive(Drop)]
struct Before {
    names: Vec<Name>,
}

impl Tell for Before {
    fn tell(&mut self, alloc: Global, line: &str, out: &mut String) -> Result<(), AllocError> {
        let text = text_of(alloc, line)?;
        self.names
            .push(Name::of_text(alloc, &text, 0, text.len())?)?;
        push_signs(alloc, out, &self.names, &text)
    }
}

/// Adds how the name of a text is compared with each.
fn push_signs(
    alloc: Global,
    out: &mut String,
    names: &[Name],
    text: &Text,
) -> Result<(), AllocError> {
    let name = Name::of_text(alloc, text, 0, text.len())?;
    out.push(' ')?;
    for other in names {
        out.push(sign(&name, other))?;
    }
    Ok(())
}

/// How names are compared.
fn sign(one: &Name, other: &Name) -> char {
    let order = one.cmp(other);
    if one.partial_cmp(other) != Some(order) || other.cmp(one) != order.reverse() {
        return '?';
    }
    let (is_same, is_less) = (one == other, one < other);
    match order {
        Ordering::Less if is_less && !is_same && !one.same(other) => '<',
        Ordering::Equal if is_same && !is_less && one.same(other) => '=',
        Ordering::Greater if !is_less && !is_same && !one.same(other) => '>',
        _ => '?',
    }
}
