//! The header of an item as the rules read it.
ghost use Rattle.std.specs.Prelude.{◌≡◌, IfOk};
ghost use Rattle.decl_parser.specs.Header.{angled_after, header_of};

use crate::annotation::without_annotations;
use crate::node::Node;
use crate::role::Role;
use std::alloc::{AllocError, Global};

/// The header with annotations taken out, and with what stands within angles set aside.
pub(crate) fn header_of(alloc: Global, nodes: Vec<Node>) -> Result<Vec<Node>, AllocError>
    ensures { IfOk result (λ header. header.items ≡ header_of nodes.items) }
{
    let mut header = without_annotations(alloc, nodes)?;
    set_angled(&mut header);
    Ok(header)
}

/// Sets the nodes within angles aside.
#[tactic(auto, unfolding(crate::specs::Header::angled_after))]
fn set_angled(nodes: &mut Vec<Node>)
    ensures { nodes.new.items ≡ angled_after 0 nodes.old.items }
{
    let mut depth: usize = 0;
    for place in 0..nodes.len() {
        let node = nodes[place];
        if node.is(Role::Less) {
            depth += 1;
        } else if node.is(Role::Greater) {
            depth = depth.saturating_sub(1);
        } else if depth > 0 {
            nodes[place] = node.with_role(Role::Angled);
        }
    }
}
