//! The nodes of the forest of groups.
ghost use Rattle.std.specs.Prelude.{◌≡◌, ◌==◌, ◌<◌};
ghost use Rattle.decl_parser.specs.Forest.{is, is_identifier};
ghost use Rattle.decl_parser.specs.Node.{node_of, sized, in_role};

use crate::role::Role;
use java_tokens::Token;
use std::marker::Model;

/// A token that is no comment and no closing bracket. An opening bracket stands for its group.
///
/// Twelve bytes: the length of a token has three of them.
#[derive(Clone, Copy)]
pub(crate) struct Node {
    at: u32,
    size: u32,
    len_low: u16,
    len_high: u8,
    role: Role,
}

impl Model for Node {
    ghost use Rattle.std.specs.Prelude.{◌+◌, ◌*◌, ◌/◌, ◌%◌, ◌<◌};
    ghost use Rattle.decl_parser.specs.Node.{Node as Seen};

    ghost Value = { Seen };

    ghost view = { λ n. record { at = n.at; len = n.len_low + 65536 * n.len_high; role = n.role; size = n.size } };

    ghost invariant = { λ n. n.len_low < 65536 };

    ghost inverse = { λ n. record { at = n.at; size = n.size; len_low = n.len % 65536; len_high = n.len / 65536; role = n.role } };
}

const _: () = prove!(size_of::<Node>() == 12);

impl Node {
    /// The node of a token. There is nothing in its group yet.
    pub(crate) fn of(token: &Token, role: Role) -> Node
        requires { token.now.len < 16777216 }
        ensures { result ≡ node_of token.now role }
    {
        Node {
            at: token.at(),
            size: 0,
            len_low: (token.len() % 65536) as u16,
            len_high: (token.len() / 65536) as u8,
            role,
        }
    }

    /// The place of its first character.
    #[inline]
    pub(crate) fn at(&self) -> u32
        ensures { result ≡ self.now.at }
    {
        self.at
    }

    /// The number of its characters.
    #[inline]
    pub(crate) fn len(&self) -> u32
        ensures { result ≡ self.now.len }
    {
        self.len_low as u32 + 65536 * self.len_high as u32
    }

    /// What it is to the rules.
    #[inline]
    pub(crate) fn role(&self) -> Role
        ensures { result ≡ self.now.role }
    {
        self.role
    }

    /// How many of the nodes behind it stand in its group.
    #[inline]
    pub(crate) fn size(&self) -> u32
        ensures { result ≡ self.now.size }
    {
        self.size
    }

    /// The node with so many nodes in its group.
    pub(crate) fn with_size(self, size: u32) -> Node
        ensures { result ≡ sized size self }
    {
        Node { size, ..self }
    }

    /// The node in another role.
    pub(crate) fn with_role(self, role: Role) -> Node
        ensures { result ≡ in_role role self }
    {
        Node { role, ..self }
    }

    /// Whether the node has a role.
    #[inline]
    pub(crate) fn is(&self, role: Role) -> bool
        ensures { result ≡ is role self.now }
    {
        self.role.is(role)
    }

    /// Whether the node is an identifier.
    #[inline]
    pub(crate) fn is_identifier(&self) -> bool
        ensures { result ≡ is_identifier self.now }
    {
        self.is(Role::Identifier) || self.is(Role::Record) || self.is(Role::Permits)
    }
}
