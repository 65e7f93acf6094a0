//! A whole script, played over one shared workspace.
ghost use Rattle.std.specs.Prelude.{◌≡◌, ◌≤◌, ℕ, [], All, IfOk, OnOk, length};
ghost use Rattle.action_lock.specs.Views.{first_view};
ghost use Rattle.script_lang.specs.Held.{IsOfLine};
ghost use Rattle.transcripts.specs.Fits.{RunFits};
ghost use Rattle.transcripts.specs.Play.{ended_of};
ghost use Rattle.shared_ide.specs.Passes.{ide_view, IsSameIdePass};
ghost use Rattle.shared_ide.specs.Passes.{IsIdePassOf};
ghost use Rattle.playing.specs.Rounds.{IsAlone, HasDoneAlone};
ghost use Rattle.playing.specs.Runs.{HasRunAll};

use crate::do_section;
use crate::outcomes::Outcomes;
use crate::round::play_round;
use action_lock::Gate;
use script_lang::{Line, Script};
use shared_ide::{IdePass, SharedIde, Store};
use std::alloc::{AllocError, Global};
use std::sync::Wait;
use std::thread::Threads;
use transcripts::{Loaded, Played, Records};

/// The seat of the prelude and of the last section.
const LEADER: u32 = 0;

/// Plays a script: the prelude, then its lanes and so many workers, each on a thread of its own beside the others, then
/// the last section. `loads` is what was read for the prelude. Index data that the store has aren't made anew. May block.
pub fn play<R: Threads + Wait + Sync, G: Gate + Sync>(
    rt: &R,
    alloc: Global,
    script: &Script,
    loads: &[Loaded],
    workers: u32,
    store: Store,
    gate: &G,
) -> Result<Played, AllocError>
    requires few { workers ≤ 8 }
    ensures fits { IfOk result
        (λ played. RunFits loads.now script.now played.workers.items (ended_of played)) }
    ensures workers { IfOk result (λ played. length played.workers.items ≡ workers) }
{
    let places = script.lanes() as u32 + workers;
    let (ide, mut pass) = SharedIde::new(alloc, store, places)?;
    let mut answers = Outcomes::new(alloc);
    let mut last = Records::new(alloc);
    let done = play_all(
        rt,
        alloc,
        &ide,
        &mut pass,
        script,
        loads,
        workers,
        &mut answers,
        &mut last,
        gate,
    );
    let history = ide.close(pass).into_history();
    done?;
    let Outcomes { records, workers } = answers;
    Ok(Played {
        history,
        records,
        last,
        workers,
    })
}

/// Plays a script on the first pass of a workspace, which is alone again in every case. When memory runs out, what was
/// made so far stays. May block.
fn play_all<R: Threads + Wait + Sync, G: Gate + Sync>(
    rt: &R,
    alloc: Global,
    ide: &SharedIde,
    pass: &mut IdePass,
    script: &Script,
    loads: &[Loaded],
    workers: u32,
    answers: &mut Outcomes,
    last: &mut Records,
    gate: &G,
) -> Result<(), AllocError>
    requires pass { IsIdePassOf ide.now pass.old }
    requires first { (places : ℕ) × (ide_view pass.old ≡ first_view places) }
    requires no_answers { (answers.old.records ≡ []) × (answers.old.workers.items ≡ [])
        × (last.old ≡ []) }
    requires few { workers ≤ 8 }
    ensures pass { IsIdePassOf ide.now pass.new × IsSameIdePass pass.old pass.new }
    ensures alone { IsAlone (ide_view pass.new) }
    ensures run { OnOk result
        (HasRunAll loads.now script.now workers (ide_view pass.new).seen answers.new last.new) }
{
    let prelude = script.prelude();
    do_alone(
        rt,
        alloc,
        ide,
        pass,
        prelude,
        loads,
        &mut answers.records,
        gate,
    )?;
    play_round(rt, alloc, ide, pass, script, workers, answers, gate)?;
    do_alone(rt, alloc, ide, pass, script.last(), &[], last, gate)
}

/// Does the lines of the prelude or of the last section, while no other pass is out. May block.
fn do_alone<R: Threads + Wait, G: Gate>(
    rt: &R,
    alloc: Global,
    ide: &SharedIde,
    pass: &mut IdePass,
    lines: &[Line],
    loads: &[Loaded],
    records: &mut Records,
    gate: &G,
) -> Result<(), AllocError>
    requires pass { IsIdePassOf ide.now pass.old }
    requires alone { IsAlone (ide_view pass.old) }
    requires lines { All (λ line. IsOfLine line.command) lines.now }
    ensures pass { IsIdePassOf ide.now pass.new × IsSameIdePass pass.old pass.new }
    ensures alone { IsAlone (ide_view pass.new) }
    ensures drawn { (ide_view pass.new).drawn ≡ (ide_view pass.old).drawn }
    ensures done { OnOk result
        (HasDoneAlone lines.now loads.now (ide_view pass.old)
        (ide_view pass.new) records.old records.new) }
{
    let done = do_section(
        rt, alloc, ide, pass, LEADER, lines, loads, false, records, gate,
    );
    ide.is_last(pass);
    done
}
