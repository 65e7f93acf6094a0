//! The lines of a script that hold commands, and the section in which they stand.
ghost use Rattle.std.specs.Prelude.{◌≡◌, ◌∷◌, ◌++◌, [], IfOk};

use crate::Command;
use std::alloc::{AllocError, Global};
use std::marker::Model;

/// The part of a script in which a line stands.
#[derive(Clone, Copy, Debug, PartialEq, Eq)]
pub enum Section {
    /// The lines before any other section.
    Prelude,
    /// A lane, counted from 1.
    Lane { number: u32 },
    /// The lines that follow all lanes.
    Finally,
}

/// A command and where it stands.
#[derive(Drop)]
pub struct Line {
    /// The number of its line in the script, from 1; of a group, that of its first line.
    pub number: u32,
    /// What it asks for.
    pub command: Command,
}

/// The commands of one section, in order.
#[derive(Drop)]
pub(crate) struct Part {
    lines: Vec<Line>,
}

impl Model for Part {
    ghost use Rattle.std.specs.Prelude.{List};
    ghost use Rattle.script_lang.specs.declared.line.Line.{Line};

    ghost Value = { List Line };

    ghost view = { λ p. p.lines.items };
}

impl Part {
    /// No command. It takes no memory.
    pub(crate) fn new(alloc: Global) -> Part
        ensures { result ≡ [] }
    {
        Part {
            lines: Vec::new(alloc),
        }
    }

    /// Adds a command.
    pub(crate) fn push(&mut self, line: Line) -> Result<(), AllocError>
        ensures { IfOk result (λ _. self.new ≡ self.old ++ line ∷ []) }
    {
        self.lines.push(line)?;
        Ok(())
    }

    /// The commands.
    pub(crate) fn as_slice(&self) -> &[Line]
        ensures { result.now ≡ self.now }
    {
        &self.lines
    }
}
