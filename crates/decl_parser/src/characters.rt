//! The characters of a node in its text.
ghost use Rattle.std.specs.Prelude.{◌≡◌, ◌+◌, ◌-◌, ◌<◌, ◌≤◌, suc, [], ◌∷◌, IfOk, IfNone, IfSome, OnSome, length, take, drop, bytes_eq};
ghost use Rattle.ide_text.specs.Text.{max_chars};
ghost use Rattle.decl_parser.specs.Node.{name_of};

use crate::node::Node;
use ide_text::{Name, Text};
use std::alloc::{AllocError, Global};

/// A part of a text: where it begins, and where it ends.
#[derive(Clone, Copy)]
struct Part {
    from: u32,
    to: u32,
}

/// The part of a text that a node is; what reaches past the end of the text is cut off.
fn part_of(text: &Text, node: &Node) -> Part
    ensures ordered { result.from ≤ result.to }
    ensures inside { result.to ≤ length text.now }
    ensures few { length text.now ≤ max_chars }
    ensures characters { take (result.to - result.from) (drop result.from text.now)
        ≡ name_of text.now node.now }
{
    let from = node.at().min(text.len());
    let len = node.len().min(text.len() - from);
    Part {
        from,
        to: from + len,
    }
}

/// The characters of a node as a name.
pub(crate) fn name_of(alloc: Global, text: &Text, node: &Node) -> Result<Name, AllocError>
    ensures { IfOk result (λ name. name ≡ name_of text.now node.now) }
{
    let part = part_of(text, node);
    Name::of_text(alloc, text, part.from, part.to)
}

/// Whether two nodes have the same characters.
pub(crate) fn same_characters(text: &Text, left: &Node, right: &Node) -> bool
    ensures { result ≡ bytes_eq (name_of text.now left.now) (name_of text.now right.now) }
{
    let mut at = 0;
    while let Some(c) = char_of(text, left, at) {
        if char_of(text, right, at) != Some(c) {
            return false;
        }
        at += 1;
    }
    char_of(text, right, at).is_none()
}

/// The character of a node at a place, if it has so many.
fn char_of(text: &Text, node: &Node, at: u32) -> Option<char>
    ensures some { IfSome result
        (λ c. drop at (name_of text.now node.now) ≡ c ∷ drop (suc at) (name_of text.now node.now)) }
    ensures none { IfNone result (drop at (name_of text.now node.now) ≡ []) }
    ensures few { OnSome result (at < max_chars) }
{
    let part = part_of(text, node);
    if at < part.to - part.from {
        Some(text.char_at(part.from + at))
    } else {
        None
    }
}
