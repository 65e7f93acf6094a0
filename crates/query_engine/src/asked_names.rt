//! The names whose types a search has asked for.
ghost use Rattle.std.specs.Prelude.{◌≡◌, ◌||◌, not, ℕ, List, [], IfOk, OnOk};
ghost use Rattle.std.specs.Str.{bytes_eq};
ghost use Rattle.query_engine.specs.Inheritors.{is_asked};

use ide_text::Name;
use std::alloc::{AllocError, Global};
use std::collections::BTreeSet;
use std::marker::Model;

/// The names whose types were asked for.
#[derive(Drop)]
pub(crate) struct AskedNames<'a> {
    names: BTreeSet<&'a Name>,
}

impl<'a> Model for AskedNames<'a> {
    ghost use Rattle.std.specs.Prelude.{List, ℕ, map};

    ghost Value = { List (List ℕ) };

    ghost view = { λ a. map (λ name. name.now) a.names.keys };
}

impl<'a> AskedNames<'a> {
    /// No name.
    pub(crate) fn new(alloc: Global) -> AskedNames<'a>
        ensures { result ≡ [] }
    {
        AskedNames {
            names: BTreeSet::new(alloc),
        }
    }

    /// Puts a name in, and tells whether it is new.
    pub(crate) fn add(&mut self, name: &'a Name) -> Result<bool, AllocError>
        ensures fresh { IfOk result (λ fresh. fresh ≡ not (is_asked name.now self.old)) }
        ensures asks { OnOk result
            ((other : List ℕ)
            → is_asked other self.new ≡ (bytes_eq other name.now || is_asked other self.old)) }
    {
        Ok(self.names.insert(name)?)
    }
}
