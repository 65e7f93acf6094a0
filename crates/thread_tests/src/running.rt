//! Runs of scripts, and what is to be said of them.
ghost use Rattle.std.specs.Prelude.{◌≤◌};

use crate::drawn::drawn_script;
use crate::judging::{is_right, loaded_files, no_files};
use crate::lanes::is_among;
use crate::scenes::{MISTAKES, Mistake, SCENES};
use crate::stage::{Hold, Stage};
use ide_io::MemoryTree;
use playing::{LaneGate, play};
use script_lang::{Script, is_within_limit, parse};
use shared_ide::{Store, Worked};
use std::alloc::{AllocError, Global};
use std::sync::Wait;
use std::thread::Threads;
use transcripts::{Loaded, Played, read_loads, transcript};

/// A script, its workers, where threads are held in its run, and the transcripts that may come out.
#[derive(Clone, Copy)]
pub struct Scene {
    pub script: &'static str,
    pub workers: u32,
    pub holds: &'static [Hold],
    /// Whether a line for each worker stands behind the transcript.
    pub tells_workers: bool,
    pub printed: &'static [&'static str],
}

/// The transcript of a scene's run, or what is wrong with it. It may block.
fn transcript_of<R: Threads + Wait + Sync>(
    rt: &R,
    alloc: Global,
    scene: &Scene,
) -> Result<String, AllocError> {
    let script = script_of(alloc, scene.script.as_bytes())?;
    transcript_of_script(rt, alloc, scene, &script)
}

/// The same of the scene's script.
fn transcript_of_script<R: Threads + Wait + Sync>(
    rt: &R,
    alloc: Global,
    scene: &Scene,
    script: &Script,
) -> Result<String, AllocError> {
    let stage = Stage::new(alloc, script.lanes(), scene.holds)?;
    transcript_on_stage(rt, alloc, scene, script, &stage)
}

/// The same where threads are held by a stage.
fn transcript_on_stage<R: Threads + Wait + Sync>(
    rt: &R,
    alloc: Global,
    scene: &Scene,
    script: &Script,
    stage: &Stage,
) -> Result<String, AllocError> {
    let workers = scene.workers.min(8);
    let store = Store::empty(alloc);
    let played = play(rt, alloc, script, &[], workers, store, stage)?;
    if stage.all_met() {
        told_of(alloc, scene, script, &played)
    } else {
        String::from_str(alloc, "not all met")
    }
}

/// The transcript of a run of a scene's script with what its workers tell, or that it is wrong.
fn told_of(
    alloc: Global,
    scene: &Scene,
    script: &Script,
    played: &Played,
) -> Result<String, AllocError> {
    let mut tree = no_files(alloc);
    if !is_right(alloc, script, scene.workers, &mut tree, played)? {
        return String::from_str(alloc, "wrong");
    }
    let mut printed = text_of(alloc, &transcript(alloc, played)?)?;
    if scene.tells_workers {
        push_workers(alloc, &mut printed, &played.workers)?;
    }
    Ok(printed)
}

/// The first transcript of a scene's run that isn't among those that may come out, or what is wrong with it; nothing where all
/// are. It may block.
pub fn fault_of_scenes<R: Threads + Wait + Sync>(
    rt: &R,
    alloc: Global,
) -> Result<Option<String>, AllocError> {
    for scene in &SCENES {
        let printed = transcript_of(rt, alloc, scene)?;
        if !is_among(&printed, scene.printed) {
            return Ok(Some(printed));
        }
    }
    Ok(None)
}

/// Adds a line for each worker.
fn push_workers(alloc: Global, out: &mut String, workers: &[Worked]) -> Result<(), AllocError> {
    for worked in workers {
        let (seat, taken, turns) = (worked.seat(), worked.taken(), worked.turns());
        out.push_str(&format!(in alloc; "worker {seat} took {taken} in {turns} turns\n")?)?;
    }
    Ok(())
}

/// A run of a script with so many workers, 8 at most, over a tree. It may block.
pub fn run<R: Threads + Wait + Sync>(
    rt: &R,
    alloc: Global,
    script: &Script,
    workers: u32,
    tree: &mut MemoryTree,
) -> Result<Played, AllocError> {
    let loads = loads_of(alloc, script, tree)?;
    let gate = LaneGate::new(rt, script);
    let store = Store::empty(alloc);
    play(rt, alloc, script, &loads, workers.min(8), store, &gate)
}

/// Whether a run of a script with so many workers is right over a tree. It may block.
pub fn is_run_right<R: Threads + Wait + Sync>(
    rt: &R,
    alloc: Global,
    script: &Script,
    workers: u32,
    tree: &mut MemoryTree,
) -> Result<bool, AllocError> {
    let played = run(rt, alloc, script, workers, tree)?;
    is_right(alloc, script, workers, tree, &played)
}

/// What is read for the lines of a script's prelude. A load that fails counts as running out of memory.
fn loads_of(
    alloc: Global,
    script: &Script,
    tree: &mut MemoryTree,
) -> Result<Vec<Loaded>, AllocError> {
    match read_loads(alloc, script.prelude(), tree) {
        Ok(loads) => Ok(loads),
        Err(_) => Err(AllocError),
    }
}

/// Drawn scripts: one of each seed, with so many lanes of so many commands, played with fewer workers than this.
pub struct Drawn {
    pub seeds: [u32; 2],
    pub lanes: u32,
    pub count: u32,
    pub workers: u32,
}

/// Whether a run of the drawn script of a seed is right. It may block.
fn is_drawn_right<R: Threads + Wait + Sync>(
    rt: &R,
    alloc: Global,
    drawn: &Drawn,
    seed: u32,
) -> Result<bool, AllocError> {
    let text = drawn_script(alloc, seed, drawn.lanes, drawn.count)?;
    let script = script_of(alloc, text.as_bytes())?;
    is_run_of_drawn_right(
        rt,
        alloc,
        &script,
        seed.checked_rem(drawn.workers).unwrap_or(0),
    )
}

/// The same of the script.
fn is_run_of_drawn_right<R: Threads + Wait + Sync>(
    rt: &R,
    alloc: Global,
    script: &Script,
    workers: u32,
) -> Result<bool, AllocError> {
    let mut tree = loaded_files(alloc)?;
    is_run_right(rt, alloc, script, workers, &mut tree)
}

/// The first seed of some drawn scripts of which a run isn't right; nothing where all are. It may block.
pub fn wrong_seed<R: Threads + Wait + Sync>(
    rt: &R,
    alloc: Global,
    scripts: &[Drawn],
) -> Result<Option<u32>, AllocError> {
    for drawn in scripts {
        if let Some(seed) = wrong_seed_of(rt, alloc, drawn)? {
            return Ok(Some(seed));
        }
    }
    Ok(None)
}

/// The same of scripts of one kind.
fn wrong_seed_of<R: Threads + Wait + Sync>(
    rt: &R,
    alloc: Global,
    drawn: &Drawn,
) -> Result<Option<u32>, AllocError> {
    for seed in drawn.seeds[0]..drawn.seeds[1] {
        if !is_drawn_right(rt, alloc, drawn, seed)? {
            return Ok(Some(seed));
        }
    }
    Ok(None)
}

/// The first script that isn't told from another: of which a run isn't right as its own and wrong as the other's; nothing where all
/// are told. It may block.
pub fn fault_of_mistakes<R: Threads + Wait + Sync>(
    rt: &R,
    alloc: Global,
) -> Result<Option<&'static str>, AllocError> {
    for mistake in &MISTAKES {
        if !is_told(rt, alloc, mistake)? {
            return Ok(Some(mistake.played));
        }
    }
    Ok(None)
}

/// Whether each script's run is right, and that of the first isn't one of the second. It may block.
fn is_told<R: Threads + Wait + Sync>(
    rt: &R,
    alloc: Global,
    mistake: &Mistake,
) -> Result<bool, AllocError> {
    Ok(
        fits(rt, alloc, mistake.played, mistake.played)?
            && fits(rt, alloc, mistake.judged, mistake.judged)?
            && !fits(rt, alloc, mistake.played, mistake.judged)?,
    )
}

/// Whether the run of one script is right as a run of another. It may block.
fn fits<R: Threads + Wait + Sync>(
    rt: &R,
    alloc: Global,
    played: &str,
    judged: &str,
) -> Result<bool, AllocError> {
    let played = played_alone(rt, alloc, played)?;
    is_run_of(alloc, judged, &played)
}

/// A run of a script without workers. It may block.
fn played_alone<R: Threads + Wait + Sync>(
    rt: &R,
    alloc: Global,
    script: &str,
) -> Result<Played, AllocError> {
    let script = script_of(alloc, script.as_bytes())?;
    run(rt, alloc, &script, 0, &mut no_files(alloc))
}

/// Whether a run is right as one of a script without workers.
fn is_run_of(alloc: Global, script: &str, played: &Played) -> Result<bool, AllocError> {
    let script = script_of(alloc, script.as_bytes())?;
    is_right(alloc, &script, 0, &mut no_files(alloc), played)
}

/// The script that bytes spell. Bytes that are none count as running out of memory.
pub fn script_of(alloc: Global, bytes: &[u8]) -> Result<Script, AllocError> {
    if !is_within_limit(bytes) {
        return Err(AllocError);
    }
    match parse(alloc, bytes) {
        Ok(script) => Ok(script),
        Err(_) => Err(AllocError),
    }
}

/// Bytes as a text. Bytes that are none count as running out of memory.
pub fn text_of(alloc: Global, bytes: &[u8]) -> Result<String, AllocError> {
    match str::from_utf8(bytes) {
        Ok(text) => String::from_str(alloc, text),
        Err(_) => Err(AllocError),
    }
}
