//! Methods and constructors.
ghost use Rattle.std.specs.Prelude.{◌≡◌, true};
ghost use Rattle.decl_parser.specs.Rule.{first_is, may_precede_constructor, method_after};

use crate::node::Node;
use crate::role::Role;

/// The name of the method or constructor that a header declares, if it declares one, and whether only such nodes stand
/// before it as may stand before the name of a constructor.
#[tactic(auto, unfolding(crate::specs::Rule::method_after))]
pub(crate) fn method_name(header: &[Node]) -> Option<(Node, bool)>
    ensures { result ≡ method_after true header.now }
{
    let mut only = true;
    let mut rest = header;
    while let Some((node, behind)) = rest.split_first() {
        if node.is_identifier() && first_is(Role::ParenGroup, behind) {
            return Some((*node, only));
        }
        only = only && may_precede_constructor(node);
        rest = behind;
    }
    None
}

/// Whether the first node has a role.
fn first_is(role: Role, nodes: &[Node]) -> bool
    ensures { result ≡ first_is role nodes.now }
{
    match nodes.first() {
        Some(node) => node.is(role),
        None => false,
    }
}

/// Whether the node may stand before the name of a constructor.
fn may_precede_constructor(node: &Node) -> bool
    ensures { result ≡ may_precede_constructor node.now }
{
    node.is(Role::Modifier)
        || node.is(Role::Angled)
        || node.is(Role::Less)
        || node.is(Role::Greater)
}
