//! The commands of the script, drawn one after another.
ghost use Rattle.std.specs.Prelude.{◌≡◌, ◌<◌, ◌≤◌, IfOk, OnOk};
ghost use Rattle.demo.specs.Draws.{state_after};
ghost use Rattle.demo.specs.Commands.{creates, edits};

use crate::command::{Command, Verb};
use crate::draws::Draws;
use std::alloc::{AllocError, Global};

/// The files of the prelude. Each takes one draw.
pub fn create_commands(
    alloc: Global,
    draws: &mut Draws,
    files: u32,
) -> Result<Vec<Command>, AllocError>
    requires { files ≤ 10000 }
    ensures commands { IfOk result (λ commands. commands.items ≡ creates draws.old.state files) }
    ensures drawn { OnOk result (draws.new.state ≡ state_after draws.old.state files) }
{
    let mut commands = Vec::new(alloc);
    for before in 0..files {
        let file = before + 1;
        commands.push(Command {
            verb: Verb::Create,
            file,
            parent: draws.draw() % file,
            method: file,
        })?;
    }
    Ok(commands)
}

/// The edits of both lanes, in the order in which they are drawn. Each takes two draws.
pub fn edit_commands(
    alloc: Global,
    draws: &mut Draws,
    files: u32,
    count: u32,
) -> Result<Vec<Command>, AllocError>
    requires some { 0 < files }
    requires few_files { files ≤ 10000 }
    requires few_edits { count ≤ 50000 }
    ensures { IfOk result (λ commands. commands.items ≡ edits draws.old.state files count) }
{
    let mut commands = Vec::new(alloc);
    for before in 0..count {
        let file = 1 + draws.draw() % files;
        let parent = draws.draw() % file;
        commands.push(Command {
            verb: Verb::Write,
            file,
            parent,
            method: before + 1,
        })?;
    }
    Ok(commands)
}
