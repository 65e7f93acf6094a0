//! The supers of a type.
ghost use Rattle.std.specs.Prelude.{◌≡◌, ◌++◌, IfOk, OnOk, map};
ghost use Rattle.std.specs.Option.{option_to_list};
ghost use Rattle.decl_parser.specs.Node.{name_of};
ghost use Rattle.decl_parser.specs.Rule.{supers_of};

use crate::characters::name_of;
use crate::node::Node;
use crate::role::Role;
use ide_text::Text;
use std::alloc::{AllocError, Global};
use stub_tree::Names;

/// The names of the supers of a type, from the nodes behind its name.
#[tactic(auto, unfolding(crate::specs::Rule::supers_after))]
pub(crate) fn supers_of(alloc: Global, text: &Text, behind: &[Node]) -> Result<Names, AllocError>
    ensures { IfOk result (λ supers. supers ≡ map (name_of text.now) (supers_of behind.now)) }
{
    let mut supers = Names::new(alloc);
    let mut in_clause = false;
    let mut last = None;
    for node in behind {
        if node.is(Role::Extends) || node.is(Role::Implements) {
            in_clause = true;
        } else if node.is(Role::Permits) {
            in_clause = false;
        } else if !node.is(Role::Comma) {
            if in_clause && node.is_identifier() {
                last = Some(*node);
            }
            continue;
        }
        push_name(alloc, text, last, &mut supers)?;
        last = None;
    }
    push_name(alloc, text, last, &mut supers)?;
    Ok(supers)
}

/// Adds the name of a node, if there is one.
fn push_name(
    alloc: Global,
    text: &Text,
    node: Option<Node>,
    names: &mut Names,
) -> Result<(), AllocError>
    ensures { OnOk result
        (names.new ≡ names.old ++ map (name_of text.now) (option_to_list node)) }
{
    if let Some(node) = node {
        names.push(name_of(alloc, text, &node)?)?;
    }
    Ok(())
}
