//! The items of a level.
ghost use Rattle.std.specs.Prelude.{◌≡◌, ◌<◌, ◌≤◌, [], ◌∷◌, IfOk, IfNone, IfSome, length};
ghost use Rattle.decl_parser.specs.Unit.{units_of, items_of, items_behind_value};

use crate::node::Node;
use crate::role::Role;
use crate::unit::first_unit;
use std::alloc::{AllocError, Global};

/// The first item of a level, and the nodes behind it.
#[derive(Drop)]
pub(crate) struct FirstItem<'a> {
    /// What stands in its header.
    pub(crate) header: Vec<Node>,
    /// What stands inside the brace group that ends it, if one does.
    pub(crate) body: &'a [Node],
    /// The nodes behind the item.
    pub(crate) behind: &'a [Node],
}

/// The first item of a level, if it has one.
#[tactic(auto, unfolding(crate::specs::Unit::items_from))]
pub(crate) fn first_item<'a>(
    alloc: Global,
    level: &'a [Node],
) -> Result<Option<FirstItem<'a>>, AllocError>
    ensures none { IfOk result (λ item. IfNone item (items_of (units_of level.now) ≡ [])) }
    ensures some { IfOk result
        (λ item. IfSome item
        (λ i. items_of (units_of level.now)
        ≡ record { header = i.header.items; body = i.body.now } ∷ items_of
        (units_of i.behind.now))) }
    ensures fewer { IfOk result
        (λ item. IfSome item (λ i. length i.behind.now < length level.now)) }
{
    let mut header = Vec::new(alloc);
    let mut rest = level;
    while let Some(unit) = first_unit(rest) {
        rest = unit.behind;
        if unit.node.is(Role::Semicolon) {
            return Ok(Some(FirstItem {
                header,
                body: &[],
                behind: rest,
            }));
        }
        if unit.node.is(Role::BraceGroup) {
            return Ok(Some(FirstItem {
                header,
                body: unit.inside,
                behind: rest,
            }));
        }
        if unit.node.is(Role::Equals) {
            return Ok(Some(FirstItem {
                header,
                body: &[],
                behind: behind_value(rest),
            }));
        }
        header.push(unit.node)?;
    }
    if header.is_empty() {
        return Ok(None);
    }
    Ok(Some(FirstItem {
        header,
        body: &[],
        behind: &[],
    }))
}

/// The nodes behind the first `;` of a level, which ends the item whose `=` was met.
#[tactic(auto, unfolding(crate::specs::Unit::items_behind_value))]
fn behind_value<'a>(level: &'a [Node]) -> &'a [Node]
    ensures items { items_behind_value (units_of level.now) ≡ items_of (units_of result.now) }
    ensures no_more { length result.now ≤ length level.now }
{
    let mut rest = level;
    while let Some(unit) = first_unit(rest) {
        rest = unit.behind;
        if unit.node.is(Role::Semicolon) {
            break;
        }
    }
    rest
}
