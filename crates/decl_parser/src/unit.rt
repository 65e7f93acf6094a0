//! The units of a level: tokens, and groups as one unit each.
ghost use Rattle.std.specs.Prelude.{◌≡◌, ◌<◌, [], ◌∷◌, IfNone, IfSome, length};
ghost use Rattle.decl_parser.specs.Unit.{units_of};

use crate::node::Node;
use crate::role::Role;

/// The first unit of a level, and the nodes behind it.
#[derive(Drop)]
pub(crate) struct FirstUnit<'a> {
    /// The token, or the bracket that opens the group.
    pub(crate) node: Node,
    /// What stands in the group.
    pub(crate) inside: &'a [Node],
    /// The nodes behind the unit.
    pub(crate) behind: &'a [Node],
}

/// The first unit of a level, if it has one.
#[tactic(auto, unfolding(crate::specs::Unit::units_past))]
pub(crate) fn first_unit<'a>(level: &'a [Node]) -> Option<FirstUnit<'a>>
    ensures none { IfNone result (units_of level.now ≡ []) }
    ensures some { IfSome result (λ u. units_of level.now
        ≡ record { node = u.node; inside = u.inside.now } ∷ units_of u.behind.now) }
    ensures fewer { IfSome result (λ u. length u.behind.now < length level.now) }
{
    let mut rest = level;
    while let Some((node, others)) = rest.split_first() {
        if !node.is(Role::Lone) {
            let (inside, behind) = others.split_at((node.size() as usize).min(others.len()));
            return Some(FirstUnit {
                node: *node,
                inside,
                behind,
            });
        }
        rest = others;
    }
    None
}
