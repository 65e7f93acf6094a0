//! Types: the word of a header that declares one.
ghost use Rattle.std.specs.Prelude.{◌≡◌, None, Some, MatchOption};
ghost use Rattle.decl_parser.specs.Rule.{begins_record, type_kind, type_head};

use crate::node::Node;
use crate::role::Role;
use stub_tree::StubKind;

/// What declares a type.
#[derive(Drop)]
pub(crate) struct TypeHead<'a> {
    /// The kind of type.
    pub(crate) kind: StubKind,
    /// The nodes behind the word that declares it.
    pub(crate) behind: &'a [Node],
}

/// What declares a type in a header, if anything does.
#[tactic(auto, unfolding(crate::specs::Rule::type_after))]
pub(crate) fn type_head<'a>(header: &'a [Node]) -> Option<TypeHead<'a>>
    ensures { MatchOption result (type_head header.now ≡ None)
        (λ t. type_head header.now ≡ Some (t.kind, t.behind.now)) }
{
    let mut before = Role::Other;
    let mut rest = header;
    while let Some((node, behind)) = rest.split_first() {
        if let Some(kind) = type_kind(before, node, behind) {
            return Some(TypeHead { kind, behind });
        }
        before = node.role();
        rest = behind;
    }
    None
}

/// The kind of type that a node declares, by the role of the node before it and by the nodes behind it.
#[tactic(auto, unfolding(crate::specs::Rule::type_kind))]
fn type_kind(before: Role, node: &Node, behind: &[Node]) -> Option<StubKind>
    ensures { result ≡ type_kind before node.now behind.now }
{
    if before.is(Role::Dot) {
        None
    } else if node.is(Role::Class) {
        Some(StubKind::Class)
    } else if node.is(Role::Interface) {
        Some(if before.is(Role::At) {
            StubKind::Annotation
        } else {
            StubKind::Interface
        })
    } else if node.is(Role::Enum) {
        Some(StubKind::Enum)
    } else if node.is(Role::Record) && begins_record(behind) {
        Some(StubKind::Record)
    } else {
        None
    }
}

/// Whether these nodes may follow the word `record` where it declares a type.
fn begins_record(behind: &[Node]) -> bool
    ensures { result ≡ begins_record behind.now }
{
    match behind {
        [name, next, ..] => {
            name.is_identifier() && (next.is(Role::ParenGroup) || next.is(Role::Less))
        }
        _ => false,
    }
}
