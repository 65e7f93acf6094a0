//! The opening brackets that are still open.
ghost use Rattle.std.specs.Prelude.{◌≡◌, ◌∷◌, [], IfNone, IfSome, OnOk};
ghost use Rattle.decl_parser.specs.Forest.{finds};

use crate::bracket::Bracket;
use std::alloc::{AllocError, Global};
use std::marker::Model;

/// An opening bracket.
#[derive(Clone, Copy)]
pub(crate) struct Open {
    /// Its place among the nodes.
    pub(crate) place: u32,
    /// Its kind.
    pub(crate) bracket: Bracket,
}

/// An opening bracket, and for each kind whether a closing bracket of that kind would find its partner there or
/// further out.
#[derive(Clone, Copy)]
pub(crate) struct Frame {
    opener: Open,
    paren: bool,
    square: bool,
    brace: bool,
}

/// The opening brackets that are still open, seen as a list with the innermost first.
#[derive(Drop)]
pub(crate) struct OpenBrackets {
    frames: Vec<Frame>,
}

impl Model for OpenBrackets {
    ghost use Rattle.std.specs.Prelude.{List, reverse};
    ghost use Rattle.decl_parser.specs.declared.open_brackets.Open.{Open};
    ghost use Rattle.decl_parser.specs.Known.{opens_of, AreKnown};

    ghost Value = { List Open };

    ghost view = { λ o. opens_of (reverse o.frames.items) };

    ghost invariant = { λ o. AreKnown (reverse o.frames.items) };
}

impl OpenBrackets {
    /// No bracket.
    pub(crate) fn new(alloc: Global) -> OpenBrackets
        ensures { result ≡ [] }
    {
        OpenBrackets {
            frames: Vec::new(alloc),
        }
    }

    /// Whether a closing bracket of this kind finds its partner. Constant time.
    pub(crate) fn finds(&self, bracket: Bracket) -> bool
        ensures { result ≡ finds bracket self.now }
    {
        match self.frames.last() {
            None => false,
            Some(frame) => match bracket {
                Bracket::Paren => frame.paren,
                Bracket::Square => frame.square,
                Bracket::Brace => frame.brace,
            },
        }
    }

    /// Adds a bracket as the innermost.
    pub(crate) fn push(&mut self, opener: Open) -> Result<(), AllocError>
        ensures { OnOk result (self.new ≡ opener ∷ self.old) }
    {
        let wall = opener.bracket.is(Bracket::Brace);
        let frame = Frame {
            opener,
            paren: opener.bracket.is(Bracket::Paren) || (!wall && self.finds(Bracket::Paren)),
            square: opener.bracket.is(Bracket::Square) || (!wall && self.finds(Bracket::Square)),
            brace: wall || self.finds(Bracket::Brace),
        };
        self.frames.push(frame)?;
        Ok(())
    }

    /// Takes the innermost bracket away.
    pub(crate) fn pop(&mut self) -> Option<Open>
        ensures none { IfNone result ((self.old ≡ []) × (self.new ≡ [])) }
        ensures some { IfSome result (λ opener. self.old ≡ opener ∷ self.new) }
    {
        match self.frames.pop() {
            None => None,
            Some(frame) => Some(frame.opener),
        }
    }
}
