//! The listing of a text.
ghost use Rattle.std.specs.Prelude.{◌≡◌, ◌≤◌, ◌+◌, ◌++◌, ◌∷◌, [], IfOk, OnOk, map};
ghost use Rattle.java_tokens.specs.Tokens.{tokens_of};
ghost use Rattle.stub_tree.specs.Lawful.{max_depth};
ghost use Rattle.decl_parser.specs.Unit.{units_of};
ghost use Rattle.decl_parser.specs.Listing.{constant_stub, stub_of, constants_at, units_of_items, item_stubs, stubs_at, listing_of};

use crate::characters::name_of;
use crate::constants::enum_body;
use crate::declaration::{Found, Holder, declaration_of};
use crate::forest::forest;
use crate::header::header_of;
use crate::item::first_item;
use crate::node::Node;
use crate::supers::supers_of;
use ide_text::{MAX_CHARS, Text};
use java_tokens::Token;
use java_tokens::laws::tokens_cover_their_text;
use std::alloc::{AllocError, Global};
use stub_tree::{MAX_DEPTH, Stub, StubKind, StubList};

/// The declarations that a text lists, in its order, from its tokens, which are let go once the forest is made. Linear
/// in them; types in types are the only recursion, and go no deeper than the greatest depth.
pub fn stubs(alloc: Global, text: &Text, tokens: Vec<Token>) -> Result<StubList, AllocError>
    requires { tokens.items ≡ tokens_of text.now }
    ensures { IfOk result (λ list. list ≡ listing_of text.now) }
{
    tokens_cover_their_text();
    prove!(text.len() as usize <= MAX_CHARS);
    let forest = forest(alloc, text, &tokens)?;
    drop(tokens);
    let mut stubs = Vec::new(alloc);
    add_level(alloc, text, &forest, 0, &None, &mut stubs)?;
    Ok(StubList::from_vec(stubs))
}

/// Adds what a level lists: the constants of an enum, and then what its items declare, each type before its members.
#[cycle(level)]
fn add_level(
    alloc: Global,
    text: &Text,
    level: &[Node],
    depth: u8,
    holder: &Option<Holder>,
    stubs: &mut Vec<Stub>,
) -> Result<(), AllocError>
    requires { depth ≤ max_depth + 1 }
    ensures { OnOk result
        (stubs.new.items ≡ stubs.old.items
        ++ stubs_at text.now depth holder.now (units_of level.now)) }
{
    if depth > MAX_DEPTH {
        return Ok(());
    }
    let mut rest = add_constants(alloc, text, level, depth, holder, stubs)?;
    while let Some(item) = first_item(alloc, rest)? {
        rest = item.behind;
        add_item(alloc, text, item.header, item.body, depth, holder, stubs)?;
    }
    Ok(())
}

/// Adds what an item lists: what it declares and, if that is a type, the members in its body.
#[cycle(level)]
fn add_item(
    alloc: Global,
    text: &Text,
    header: Vec<Node>,
    body: &[Node],
    depth: u8,
    holder: &Option<Holder>,
    stubs: &mut Vec<Stub>,
) -> Result<(), AllocError>
    requires { depth ≤ max_depth }
    ensures { OnOk result
        (stubs.new.items ≡ stubs.old.items
        ++ item_stubs text.now depth (stubs_at text.now (depth + 1)) holder.now
        (record { header = header.items; body = body.now })) }
{
    let header = header_of(alloc, header)?;
    let Some(found) = declaration_of(text, holder, &header) else {
        return Ok(());
    };
    let stub = stub_of(alloc, text, depth, &found)?;
    let is_type = stub.is_type();
    stubs.push(stub)?;
    if is_type {
        let holder = Some(Holder {
            kind: found.kind,
            name: found.name,
        });
        add_level(alloc, text, body, depth + 1, &holder, stubs)?;
    }
    Ok(())
}

/// Adds the constants that a level begins with, where it is the body of an enum, and gives the nodes that are cut into
/// items.
fn add_constants<'a>(
    alloc: Global,
    text: &Text,
    level: &'a [Node],
    depth: u8,
    holder: &Option<Holder>,
    stubs: &mut Vec<Stub>,
) -> Result<&'a [Node], AllocError>
    ensures added { OnOk result
        (stubs.new.items ≡ stubs.old.items
        ++ constants_at text.now depth holder.now (units_of level.now)) }
    ensures items { IfOk result
        (λ rest. units_of rest.now ≡ units_of_items holder.now (units_of level.now)) }
{
    let Some(holder) = holder else {
        return Ok(level);
    };
    if holder.kind.code() != StubKind::Enum.code() {
        return Ok(level);
    }
    let body = enum_body(alloc, level)?;
    push_constants(alloc, text, depth, &body.constants, stubs)?;
    Ok(body.behind)
}

/// Adds the stubs of constants.
fn push_constants(
    alloc: Global,
    text: &Text,
    depth: u8,
    constants: &[Node],
    stubs: &mut Vec<Stub>,
) -> Result<(), AllocError>
    ensures { OnOk result
        (stubs.new.items ≡ stubs.old.items ++ map (constant_stub text.now depth) constants.now) }
{
    for name in constants {
        let constant = Found {
            kind: StubKind::Constant,
            name: *name,
            behind: &[],
        };
        stubs.push(stub_of(alloc, text, depth, &constant)?)?;
    }
    Ok(())
}

/// The stub of a declaration.
#[tactic(auto, unfolding(crate::specs::Listing::stub_of))]
fn stub_of(alloc: Global, text: &Text, depth: u8, found: &Found) -> Result<Stub, AllocError>
    ensures { IfOk result (λ stub. stub ≡ stub_of text.now depth
        (record { kind = found.now.kind; name = found.now.name; behind = found.now.behind.now })) }
{
    Ok(Stub {
        kind: found.kind.code(),
        depth,
        at: found.name.at(),
        name: name_of(alloc, text, &found.name)?,
        supers: supers_of(alloc, text, found.behind)?,
    })
}
