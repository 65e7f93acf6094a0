//! A law of trees that callers rest on: a function that does nothing, whose contract is the law.
ghost use Rattle.ide_io.specs.Asks.{IsAskedInTurn};

use crate::Tree;

/// A tree that is asked for some files and then for others is asked for all of them in turn.
pub fn trees_are_asked_in_turn<T: Tree>()
    ensures { IsAskedInTurn T.asks }
{}
