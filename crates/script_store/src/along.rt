//! Going along the lines of a script: commands one after another, and lanes one after another.
ghost use Rattle.std.specs.Prelude.{◌≡◌, OnOk, option_map, unwrap_or};
ghost use Rattle.script_lang.specs.Held.{AreOfPrelude, IsOfLine};
ghost use Rattle.transcripts.specs.declared.loaded.Loaded.TheVariants.{Nothing};
ghost use Rattle.script_store.specs.Along.{HasGone, HasGoneAlong, HasGoneLanes};

use crate::entering::enter;
use crate::loading::load_in;
use crate::settling::settle;
use replay::Replay;
use script_lang::{Command, Line, Script};
use std::alloc::{AllocError, Global};
use transcripts::Loaded;
use write_history::Changes;

/// Goes along lines in order, of each of which this was read.
pub(crate) fn go_along(
    alloc: Global,
    replay: &mut Replay,
    lines: &[Line],
    loads: &[Loaded],
) -> Result<(), AllocError>
    requires { AreOfPrelude lines.now }
    ensures { OnOk result (HasGoneAlong lines.now loads.now replay.old replay.new) }
{
    for (at, line) in lines.iter().enumerate() {
        go(alloc, replay, &line.command, loads.get(at))?;
    }
    Ok(())
}

/// Goes along the lanes of a script, one after another.
pub(crate) fn go_lanes(
    alloc: Global,
    replay: &mut Replay,
    script: &Script,
) -> Result<(), AllocError>
    ensures { OnOk result (HasGoneLanes script.now.lanes replay.old replay.new) }
{
    for place in 0..script.lanes() {
        go_along(alloc, replay, script.lane(place), &[])?;
    }
    Ok(())
}

/// Goes behind a command, for which this was read. A question changes nothing, so it isn't answered.
fn go(
    alloc: Global,
    replay: &mut Replay,
    command: &Command,
    load: Option<&Loaded>,
) -> Result<(), AllocError>
    requires { IsOfLine command.now }
    ensures { OnOk result
        (HasGone
        (unwrap_or
        (option_map (λ l. l.now) load.entry) Nothing) command.now replay.old replay.new) }
{
    match command {
        Command::Change(change) => enter(alloc, replay, &Changes::one(change.copy()?)),
        Command::Group(changes) => enter(alloc, replay, changes),
        Command::Load { path } => load_in(alloc, replay, path, load),
        Command::Settle => settle(alloc, replay),
        Command::Ask(_) => Ok(()),
        Command::Soft {
            attempts: _,
            query: _,
        } => Ok(()),
    }
}
