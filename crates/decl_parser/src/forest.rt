//! From tokens to the forest of groups: partners of brackets, and brackets without one.
ghost use Rattle.std.specs.Prelude.{◌≡◌, ◌+◌, ◌-◌, ◌<◌, ◌≤◌, ◌++◌, ◌∷◌, [], All, IfOk, OnOk, length};
ghost use Rattle.std.specs.Prelude.{vec_len, vec_capacity};
ghost use Rattle.ide_text.specs.Text.{max_chars};
ghost use Rattle.java_tokens.specs.Tokens.{IsInside};
ghost use Rattle.decl_parser.specs.Forest.{Scan, with_size, without_bracket, close, close_rest, step, forest_of};

use crate::bracket::Bracket;
use crate::node::Node;
use crate::open_brackets::{Open, OpenBrackets};
use crate::role::{Role, role_of};
use ide_text::Text;
use java_tokens::Token;
use std::alloc::{AllocError, Global};

/// The forest of groups of a text, from its tokens. Linear in them.
#[tactic(auto, unfolding(crate::specs::Forest::forest_of))]
pub(crate) fn forest(alloc: Global, text: &Text, tokens: &[Token]) -> Result<Vec<Node>, AllocError>
    requires inside { All (IsInside text.now) tokens.now }
    requires few { length tokens.now ≤ max_chars }
    requires short { length text.now ≤ max_chars }
    ensures { IfOk result (λ nodes. nodes.items ≡ forest_of text.now tokens.now) }
{
    let mut nodes = Vec::with_capacity(alloc, tokens.len())?;
    let mut unclosed = OpenBrackets::new(alloc);
    for token in tokens {
        add_token(text, *token, &mut nodes, &mut unclosed)?;
    }
    close_at_end(&mut nodes, &mut unclosed);
    Ok(nodes)
}

/// Goes on by one token. There is room for its node.
#[tactic(auto, unfolding(crate::specs::Forest::step))]
fn add_token(
    text: &Text,
    token: Token,
    nodes: &mut Vec<Node>,
    unclosed: &mut OpenBrackets,
) -> Result<(), AllocError>
    requires inside { token.at + token.len ≤ length text.now }
    requires short { length text.now ≤ max_chars }
    requires room { vec_len nodes.old < vec_capacity nodes.old }
    requires few { vec_len nodes.old < max_chars }
    ensures step { OnOk result
        (step text.now (record { nodes = nodes.old.items; unclosed = unclosed.old }) token
        ≡ record { nodes = nodes.new.items; unclosed = unclosed.new }) }
    ensures room { vec_capacity nodes.new ≡ vec_capacity nodes.old }
    ensures len { vec_len nodes.new ≤ vec_len nodes.old + 1 }
{
    let role = role_of(text, &token);
    let node = Node::of(&token, role);
    if let Some(bracket) = role.opened() {
        unclosed.push(Open {
            place: nodes.len() as u32,
            bracket,
        })?;
        nodes.push_reserved(node);
    } else if let Some(bracket) = role.closed() {
        if unclosed.finds(bracket) {
            close_group(nodes, unclosed, bracket);
        }
    } else if !role.is(Role::Comment) {
        nodes.push_reserved(node);
    }
    Ok(())
}

/// Closes the innermost open bracket of a kind; those opened since stay without a partner.
#[tactic(auto, unfolding(crate::specs::Forest::close))]
fn close_group(nodes: &mut Vec<Node>, unclosed: &mut OpenBrackets, bracket: Bracket)
    requires few { vec_len nodes.old ≤ max_chars }
    ensures closed { close bracket nodes.old.items unclosed.old
        ≡ record { nodes = nodes.new.items; unclosed = unclosed.new } }
    ensures room { vec_capacity nodes.new ≡ vec_capacity nodes.old }
    ensures len { vec_len nodes.new ≡ vec_len nodes.old }
{
    while let Some(innermost) = unclosed.pop() {
        let place = innermost.place as usize;
        if innermost.bracket.is(bracket) {
            set_size(nodes, place);
            return;
        }
        take_out(nodes, place);
    }
}

/// Closes the brackets that are open at the end of the text.
#[tactic(auto, unfolding(crate::specs::Forest::close_rest))]
fn close_at_end(nodes: &mut Vec<Node>, unclosed: &mut OpenBrackets)
    requires { vec_len nodes.old ≤ max_chars }
    ensures { nodes.new.items ≡ close_rest nodes.old.items unclosed.old }
{
    while let Some(innermost) = unclosed.pop() {
        set_size(nodes, innermost.place as usize);
    }
}

/// Lets the group at a place reach to the last node.
fn set_size(nodes: &mut Vec<Node>, place: usize)
    requires few { vec_len nodes.old ≤ max_chars }
    ensures size { nodes.new.items ≡ with_size place nodes.old.items }
    ensures room { vec_capacity nodes.new ≡ vec_capacity nodes.old }
    ensures len { vec_len nodes.new ≡ vec_len nodes.old }
{
    let size = nodes.len().saturating_sub(place).saturating_sub(1);
    if place < nodes.len() {
        nodes[place] = nodes[place].with_size(size as u32);
    }
}

/// Marks the bracket at a place as one without a partner.
fn take_out(nodes: &mut Vec<Node>, place: usize)
    ensures role { nodes.new.items ≡ without_bracket place nodes.old.items }
    ensures room { vec_capacity nodes.new ≡ vec_capacity nodes.old }
    ensures len { vec_len nodes.new ≡ vec_len nodes.old }
{
    if place < nodes.len() {
        nodes[place] = nodes[place].with_role(Role::Lone);
    }
}
