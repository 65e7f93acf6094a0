//! The script: the prelude, two lanes and the last section.
ghost use Rattle.std.specs.Prelude.{length, ◌≡◌, ◌++◌, ◌<◌, ◌≤◌, IfOk, OnOk, filter};
ghost use Rattle.demo.specs.Commands.{is_of_first_lane, is_of_second_lane};
ghost use Rattle.demo.specs.Script.{demo_bytes, lines_of, max_len};

use crate::command::{Command, push_line};
use crate::commands::{create_commands, edit_commands};
use crate::draws::Draws;
use std::alloc::{AllocError, Global};

/// The script of a seed: so many files, and so many edits of them in two lanes. The lanes edit different files, so the
/// summary of its run is always the same. The time and the length grow with the number of files and edits.
pub fn demo_script(alloc: Global, seed: u32, files: u32, edits: u32) -> Result<Vec<u8>, AllocError>
    requires some_file { 0 < files }
    requires few_files { files ≤ 10000 }
    requires few_edits { edits ≤ 50000 }
    ensures bytes { IfOk result (λ script. script.items ≡ demo_bytes seed files edits) }
    ensures fits { OnOk result (length (demo_bytes seed files edits) ≤ max_len) }
{
    let mut draws = Draws::new(seed);
    let creates = create_commands(alloc, &mut draws, files)?;
    let edits = edit_commands(alloc, &mut draws, files, edits)?;
    let mut script = Vec::new(alloc);
    push_prelude(&mut script, &creates)?;
    script.extend_from_slice(b"lane\n")?;
    push_first_lane(&mut script, &edits)?;
    script.extend_from_slice(b"lane\n")?;
    push_second_lane(&mut script, &edits)?;
    script.extend_from_slice(b"finally\nsettle\nstatus\nsupers G0\nsupers G1\n")?;
    Ok(script)
}

/// Adds the lines of all these commands.
fn push_prelude(script: &mut Vec<u8>, commands: &[Command]) -> Result<(), AllocError>
    ensures { OnOk result (script.new.items ≡ script.old.items ++ lines_of commands.now) }
{
    for command in commands {
        push_line(script, *command)?;
    }
    Ok(())
}

/// Adds the lines of the commands on files with an odd number.
fn push_first_lane(script: &mut Vec<u8>, commands: &[Command]) -> Result<(), AllocError>
    ensures { OnOk result
        (script.new.items ≡ script.old.items ++ lines_of (filter is_of_first_lane commands.now)) }
{
    for command in commands {
        if command.file % 2 == 1 {
            push_line(script, *command)?;
        }
    }
    Ok(())
}

/// Adds the lines of the commands on files with an even number.
fn push_second_lane(script: &mut Vec<u8>, commands: &[Command]) -> Result<(), AllocError>
    ensures { OnOk result
        (script.new.items ≡ script.old.items ++ lines_of (filter is_of_second_lane commands.now)) }
{
    for command in commands {
        if command.file % 2 != 1 {
            push_line(script, *command)?;
        }
    }
    Ok(())
}
