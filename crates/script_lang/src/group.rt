//! A group of changes, as far as it is read.
ghost use Rattle.std.specs.Prelude.{◌≡◌, ◌≤◌, ◌++◌, ◌∷◌, [], IfOk, true, nat_lt, length};
ghost use Rattle.write_history.specs.Changes.{max_changes};
ghost use Rattle.script_lang.specs.declared.command.Command.TheVariants as command;

use crate::{Command, Line};
use std::alloc::{AllocError, Global};
use std::marker::Model;
use write_history::{Change, Changes, MAX_CHANGES};

/// A group that nothing has ended yet.
#[derive(Drop)]
pub(crate) struct Group {
    pub(crate) number: u32,
    changes: Vec<Change>,
}

impl Model for Group {
    ghost use Rattle.std.specs.Prelude.{◌≤◌, length};
    ghost use Rattle.write_history.specs.Changes.{max_changes};
    ghost use Rattle.script_lang.specs.Reading.{OpenGroup};

    ghost Value = { OpenGroup };

    ghost view = { λ g. record { number = g.number; changes = g.changes.items } };

    ghost invariant = { λ g. length g.changes.items ≤ max_changes };
}

impl Group {
    /// A group that begins at a line.
    pub(crate) fn new(alloc: Global, number: u32) -> Group
        ensures { result ≡ record { number = number; changes = [] } }
    {
        Group {
            number,
            changes: Vec::new(alloc),
        }
    }

    /// Adds a change where there is room, and tells whether there is.
    pub(crate) fn push(&mut self, change: Change) -> Result<bool, AllocError>
        ensures room { IfOk result
            (λ room. room ≡ nat_lt (length self.old.changes) max_changes) }
        ensures added { IfOk result
            (λ room. room ≡ true → self.new
            ≡ record { number = self.old.number; changes = self.old.changes ++ change ∷ [] }) }
    {
        if self.changes.len() >= MAX_CHANGES {
            drop(change);
            return Ok(false);
        }
        self.changes.push(change)?;
        Ok(true)
    }

    /// The number of changes.
    pub(crate) fn len(&self) -> usize
        ensures count { result ≡ length self.now.changes }
        ensures few { result ≤ max_changes }
    {
        self.changes.len()
    }

    /// The group as a command.
    pub(crate) fn line(self) -> Line
        requires { 1 ≤ length self.changes }
        ensures { result ≡ record { number = self.number; command = command.Group self.changes } }
    {
        Line {
            number: self.number,
            command: Command::Group(Changes::from_vec(self.changes)),
        }
    }
}
