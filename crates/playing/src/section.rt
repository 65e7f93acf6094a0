//! The lines of one section, done in order by one pass.
ghost use Rattle.std.specs.Prelude.{◌≡◌, Some, OnOk, All};
ghost use Rattle.script_lang.specs.Held.{IsOfLine};
ghost use Rattle.shared_ide.specs.Passes.{ide_view};
ghost use Rattle.shared_ide.specs.Passes.{IsIdePassOf, Continues};
ghost use Rattle.transcripts.specs.declared.loaded.Loaded.TheVariants.{Nothing};
ghost use Rattle.transcripts.specs.Serial.{first_load, later_loads};
ghost use Rattle.playing.specs.Done.{HasAdded};

use crate::line::do_line;
use action_lock::Gate;
use script_lang::Line;
use shared_ide::laws::passes_stay_the_same;
use shared_ide::{IdePass, SharedIde};
use std::alloc::{AllocError, Global};
use std::sync::Wait;
use std::thread::Threads;
use transcripts::{Loaded, Records};

/// Does the commands of a section in order, and adds a record for each, for all of which room is made first. `loads` is what
/// was read for its lines, nothing where there is no more. `seat` is the pass's number; that of a lane has the gate told
/// `Start` before each command. `beside` says whether another lane or a worker runs beside this section: only then may a soft
/// question be given up. When memory runs out, what was made so far stays. May block.
pub fn do_section<R: Threads + Wait, G: Gate>(
    rt: &R,
    alloc: Global,
    ide: &SharedIde,
    pass: &mut IdePass,
    seat: u32,
    lines: &[Line],
    loads: &[Loaded],
    beside: bool,
    records: &mut Records,
    gate: &G,
) -> Result<(), AllocError>
    requires pass { IsIdePassOf ide.now pass.old }
    requires seat { (ide_view pass.old).number ≡ Some seat }
    requires lines { All (λ line. IsOfLine line.command) lines.now }
    ensures pass { Continues ide.now pass.old pass.new }
    ensures done { OnOk result
        (HasAdded beside seat lines.now loads.now (ide_view pass.old)
        (ide_view pass.new) records.old records.new) }
{
    passes_stay_the_same();
    records.reserve(lines.len())?;
    let nothing = Loaded::Nothing;
    let mut left = loads;
    for line in lines {
        let load = first_load(left, &nothing);
        do_line(
            rt, alloc, ide, pass, seat, line, load, beside, records, gate,
        )?;
        left = later_loads(left);
    }
    Ok(())
}

/// What was read for the first of some lines: nothing where there is no more.
fn first_load<'a>(loads: &'a [Loaded], nothing: &'a Loaded) -> &'a Loaded
    requires { nothing.now ≡ Nothing }
    ensures { result.now ≡ first_load loads.now }
{
    match loads.first() {
        Some(load) => load,
        None => nothing,
    }
}

/// What was read for the others.
fn later_loads(loads: &[Loaded]) -> &[Loaded]
    ensures { result.now ≡ later_loads loads.now }
{
    match loads.split_first() {
        Some((_, rest)) => rest,
        None => loads,
    }
}
