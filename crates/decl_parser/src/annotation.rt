//! Annotations in a header.
ghost use Rattle.std.specs.Prelude.{◌≡◌, ◌≢◌, ◌≤◌, IfOk, IfNone, IfSome, length, drop};
ghost use Rattle.std.specs.List.{list_any};
ghost use Rattle.std.specs.Option.{option_to_list};
ghost use Rattle.decl_parser.specs.declared.role.Role.TheVariants.{At};
ghost use Rattle.decl_parser.specs.Forest.{is};
ghost use Rattle.decl_parser.specs.Header.{annotation_rest, annotation_len, without_annotations};
ghost use Rattle.decl_parser.specs.Rule.{first_identifier};

use crate::node::Node;
use crate::role::Role;
use std::alloc::{AllocError, Global};

/// The nodes with their annotations taken out, in one pass from the left. Nodes without a `@` stay where they are.
pub(crate) fn without_annotations(alloc: Global, nodes: Vec<Node>) -> Result<Vec<Node>, AllocError>
    ensures { IfOk result (λ plain. plain.items ≡ without_annotations nodes.items) }
{
    if has_at(&nodes) {
        plain_nodes(alloc, &nodes)
    } else {
        Ok(nodes)
    }
}

/// Whether one of the nodes is a `@`.
fn has_at(nodes: &[Node]) -> bool
    ensures { result ≡ list_any (is At) nodes.now }
{
    for node in nodes {
        if node.is(Role::At) {
            return true;
        }
    }
    false
}

/// The nodes that belong to no annotation, in a list of their own.
#[tactic(auto, unfolding(crate::specs::Header::plain_past))]
fn plain_nodes(alloc: Global, nodes: &[Node]) -> Result<Vec<Node>, AllocError>
    ensures { IfOk result (λ plain. plain.items ≡ without_annotations nodes.now) }
{
    let mut plain = Vec::new(alloc);
    let mut rest = nodes;
    while let Some((node, others)) = rest.split_first() {
        match behind_annotation(node, others) {
            Some(behind) => rest = behind,
            None => {
                plain.push(*node)?;
                rest = others;
            }
        }
    }
    Ok(plain)
}

/// The first node that belongs to no annotation, if it is an identifier.
#[tactic(auto, unfolding(crate::specs::Header::plain_past))]
pub(crate) fn first_plain_identifier(nodes: &[Node]) -> Option<Node>
    ensures { option_to_list result ≡ first_identifier (without_annotations nodes.now) }
{
    let mut rest = nodes;
    while let Some((node, others)) = rest.split_first() {
        match behind_annotation(node, others) {
            Some(behind) => rest = behind,
            None => return if node.is_identifier() {
                Some(*node)
            } else {
                None
            },
        }
    }
    None
}

/// The nodes behind the annotation that a node begins, if it begins one.
fn behind_annotation<'a>(node: &Node, others: &'a [Node]) -> Option<&'a [Node]>
    ensures none { IfNone result (annotation_len node.now others.now ≡ 0) }
    ensures some { IfSome result (λ behind. (annotation_len node.now others.now ≢ 0)
        × (behind.now ≡ drop (annotation_len node.now others.now) others.now)) }
    ensures no_more { IfSome result (λ behind. length behind.now ≤ length others.now) }
{
    let (name, behind) = others.split_first()?;
    if node.is(Role::At) && name.is_identifier() {
        Some(annotation_end(behind))
    } else {
        None
    }
}

/// The nodes behind the annotation whose first identifier stands right before these: any number of a dot and an
/// identifier belongs to it, and a paren group that follows directly.
#[tactic(auto, unfolding(crate::specs::Header::annotation_rest, crate::specs::Header::dotted_rest))]
fn annotation_end<'a>(nodes: &'a [Node]) -> &'a [Node]
    ensures rest { result.now ≡ drop (annotation_rest nodes.now) nodes.now }
    ensures no_more { length result.now ≤ length nodes.now }
{
    let mut rest = nodes;
    while let Some((node, others)) = rest.split_first() {
        if node.is(Role::ParenGroup) {
            return others;
        }
        match others.split_first() {
            Some((name, behind)) if node.is(Role::Dot) && name.is_identifier() => rest = behind,
            _ => break,
        }
    }
    rest
}
