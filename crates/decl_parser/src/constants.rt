//! The constants of an enum.
ghost use Rattle.std.specs.Prelude.{◌≡◌, ◌++◌, [], IfOk, OnOk};
ghost use Rattle.decl_parser.specs.Unit.{units_of, behind_semicolon};
ghost use Rattle.decl_parser.specs.Rule.{constant_of, constants_after};

use crate::annotation::first_plain_identifier;
use crate::node::Node;
use crate::role::Role;
use crate::unit::first_unit;
use std::alloc::{AllocError, Global};

/// The body of an enum.
#[derive(Drop)]
pub(crate) struct EnumBody<'a> {
    /// The names of its constants.
    pub(crate) constants: Vec<Node>,
    /// The nodes behind the first `;`.
    pub(crate) behind: &'a [Node],
}

/// The constants of the body of an enum, and what follows them.
#[tactic(auto, unfolding(crate::specs::Rule::constants_after, crate::specs::Unit::behind_semicolon))]
pub(crate) fn enum_body<'a>(alloc: Global, level: &'a [Node]) -> Result<EnumBody<'a>, AllocError>
    ensures constants { IfOk result
        (λ body. body.constants.items ≡ constants_after [] (units_of level.now)) }
    ensures behind { IfOk result
        (λ body. units_of body.behind.now ≡ behind_semicolon (units_of level.now)) }
{
    let mut constants = Vec::new(alloc);
    let mut piece = Vec::new(alloc);
    let mut rest = level;
    while let Some(unit) = first_unit(rest) {
        rest = unit.behind;
        if unit.node.is(Role::Semicolon) {
            break;
        }
        if unit.node.is(Role::Comma) {
            push_constant(&mut constants, &piece)?;
            piece.clear();
        } else {
            piece.push(unit.node)?;
        }
    }
    push_constant(&mut constants, &piece)?;
    Ok(EnumBody {
        constants,
        behind: rest,
    })
}

/// Adds the constant of a piece, if it gives one.
fn push_constant(constants: &mut Vec<Node>, piece: &[Node]) -> Result<(), AllocError>
    ensures { OnOk result (constants.new.items ≡ constants.old.items ++ constant_of piece.now) }
{
    if let Some(name) = first_plain_identifier(piece) {
        constants.push(name)?;
    }
    Ok(())
}
