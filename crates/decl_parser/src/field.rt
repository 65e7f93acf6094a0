//! Fields.
ghost use Rattle.std.specs.Prelude.{◌≡◌, None};
ghost use Rattle.decl_parser.specs.declared.role.Role.TheVariants.{Other};
ghost use Rattle.decl_parser.specs.Rule.{ends_type, field_after};

use crate::node::Node;
use crate::role::Role;

/// The name of the field that a header declares, if it declares one.
#[tactic(auto, unfolding(crate::specs::Rule::field_after))]
pub(crate) fn field_name(header: &[Node]) -> Option<Node>
    ensures { result ≡ field_after Other None header.now }
{
    let mut before = Role::Other;
    let mut name = None;
    for node in header {
        if node.is(Role::Comma) {
            break;
        }
        if node.is_identifier() {
            name = if ends_type(before) { Some(*node) } else { None };
        }
        before = node.role();
    }
    name
}

/// Whether the name of a field may follow a node of this role directly.
fn ends_type(role: Role) -> bool
    ensures { result ≡ ends_type role }
{
    role.is(Role::Identifier)
        || role.is(Role::Record)
        || role.is(Role::Permits)
        || role.is(Role::Primitive)
        || role.is(Role::Greater)
        || role.is(Role::SquareGroup)
}
