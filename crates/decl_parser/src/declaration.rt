//! What an item declares.
ghost use Rattle.std.specs.Prelude.{◌≡◌, None, Some, MatchOption};
ghost use Rattle.decl_parser.specs.Rule.{is_named, method_kind, named_type, declaration_of};

use crate::characters::same_characters;
use crate::field::field_name;
use crate::method::method_name;
use crate::node::Node;
use crate::type_head::type_head;
use ide_text::Text;
use stub_tree::StubKind;

/// The type whose body a level is.
#[derive(Drop)]
pub(crate) struct Holder {
    /// The kind of the type.
    pub(crate) kind: StubKind,
    /// Its name.
    pub(crate) name: Node,
}

/// A declaration.
#[derive(Drop)]
pub(crate) struct Found<'a> {
    /// Its kind.
    pub(crate) kind: StubKind,
    /// Its name.
    pub(crate) name: Node,
    /// The nodes behind the name of a type; none of any other.
    pub(crate) behind: &'a [Node],
}

/// What an item declares, if anything, by its header and the type whose body holds it.
#[tactic(auto, unfolding(crate::specs::Rule::declaration_of))]
pub(crate) fn declaration_of<'a>(
    text: &Text,
    holder: &Option<Holder>,
    header: &'a [Node],
) -> Option<Found<'a>>
    ensures { MatchOption result (declaration_of text.now holder.now header.now ≡ None)
        (λ d. declaration_of text.now holder.now header.now
        ≡ Some (record { kind = d.kind; name = d.name; behind = d.behind.now })) }
{
    if let Some(head) = type_head(header) {
        return named_type(head.kind, head.behind);
    }
    if let Some((name, only)) = method_name(header) {
        return Some(Found {
            kind: method_kind(text, holder, &name, only),
            name,
            behind: &[],
        });
    }
    let name = field_name(header)?;
    Some(Found {
        kind: StubKind::Field,
        name,
        behind: &[],
    })
}

/// The type of this kind, if its name follows.
fn named_type<'a>(kind: StubKind, behind: &'a [Node]) -> Option<Found<'a>>
    ensures { MatchOption result (named_type kind behind.now ≡ None)
        (λ d. named_type kind behind.now
        ≡ Some (record { kind = d.kind; name = d.name; behind = d.behind.now })) }
{
    match behind.split_first() {
        Some((name, behind)) if name.is_identifier() => Some(Found {
            kind,
            name: *name,
            behind,
        }),
        _ => None,
    }
}

/// A constructor, or else a method.
fn method_kind(text: &Text, holder: &Option<Holder>, name: &Node, only: bool) -> StubKind
    ensures { result ≡ method_kind text.now holder.now name.now only }
{
    match holder {
        Some(holder) if only && same_characters(text, &holder.name, name) => StubKind::Constructor,
        _ => StubKind::Method,
    }
}
