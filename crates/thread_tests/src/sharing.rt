//! What two passes of one workspace do: the first alone, both at once, and the first again, until it is closed.
ghost use Rattle.std.specs.Prelude.{◌≡◌, ◌<◌, ◌+◌, [], Some, length};
ghost use Rattle.shared_ide.specs.Passes.{IsIdePassOf, ide_view};
ghost use Rattle.thread_tests.specs.Passes.{HasActed, IsLane};

use crate::lanes::is_among;
use crate::passes::{Action, do_all};
use crate::scenes::UNDER_JOB;
use crate::stage::{Hold, Spot, Stage};
use shared_ide::{IdePass, SharedIde, Store};
use std::alloc::{AllocError, Global};
use std::sync::Wait;
use std::thread::{Threads, join_mut};
use write_history::{Change, Entry, History};

/// What the passes do, where threads are held, and the answers that may come.
#[derive(Clone, Copy)]
pub struct Sharing {
    pub before: &'static [Action],
    pub one: &'static [Action],
    pub two: &'static [Action],
    pub after: &'static [Action],
    pub holds: &'static [Hold],
    pub said: &'static [&'static str],
}

/// What a pass does beside the other one, and what it is answered.
#[derive(Drop)]
struct Part {
    actions: &'static [Action],
    said: Result<String, AllocError>,
}

impl Part {
    fn new(actions: &'static [Action]) -> Part {
        Part {
            actions,
            said: Err(AllocError),
        }
    }
}

/// What a run leaves.
#[derive(Drop)]
struct Shared {
    history: History,
    /// The answers, those of the first pass before those of the second where both are at work; or that not all met.
    said: String,
    /// How many hints the first pass put.
    hints: u32,
}

/// Plays a scene. It may block.
fn share<R: Threads + Wait + Sync>(
    rt: &R,
    alloc: Global,
    scene: &Sharing,
) -> Result<Shared, AllocError> {
    let stage = Stage::new(alloc, 1, scene.holds)?;
    share_on(rt, alloc, scene, &stage)
}

/// The same where threads are held by a stage.
fn share_on<R: Threads + Wait + Sync>(
    rt: &R,
    alloc: Global,
    scene: &Sharing,
    stage: &Stage,
) -> Result<Shared, AllocError> {
    let (ide, mut first) = SharedIde::new(alloc, Store::empty(alloc), 4)?;
    let said = play(rt, alloc, &ide, &mut first, scene, stage);
    let hints = first.queue.offered();
    let history = ide.close(first).into_history();
    what_is_left(history, said, hints, stage.all_met())
}

/// What a run leaves, of which this is what the passes were answered.
fn what_is_left(
    history: History,
    said: Result<String, AllocError>,
    hints: u32,
    all_met: bool,
) -> Result<Shared, AllocError> {
    let mut said = said?;
    if !all_met {
        said.push_str("not all met")?;
    }
    Ok(Shared {
        history,
        said,
        hints,
    })
}

/// The first answers of a scene that aren't among those that may come, or nothing. It may block.
pub fn fault_of_sharings<R: Threads + Wait + Sync>(
    rt: &R,
    alloc: Global,
) -> Result<Option<String>, AllocError> {
    for scene in &SHARINGS {
        let said = share(rt, alloc, scene)?.said;
        if !is_among(&said, scene.said) {
            return Ok(Some(said));
        }
    }
    Ok(None)
}

/// What the passes are answered.
fn play<R: Threads + Wait + Sync>(
    rt: &R,
    alloc: Global,
    ide: &SharedIde,
    first: &mut IdePass,
    scene: &Sharing,
    stage: &Stage,
) -> Result<String, AllocError>
    requires own { IsIdePassOf ide.now first.old }
    requires leads { (ide_view first.old).number ≡ Some 0 }
    requires given { (ide_view first.old).drawn ≡ 1 }
    requires alone { (ide_view first.old).ended ≡ [] }
    ensures own { IsIdePassOf ide.now first.new }
    ensures leads { (ide_view first.new).number ≡ Some 0 }
    ensures given { (ide_view first.new).drawn ≡ 2 }
    ensures ends { length (ide_view first.new).ended ≡ 1 }
{
    let before = do_all(rt, alloc, ide, first, scene.before, stage);
    let mut lane = split(ide, first);
    let mut one = Part::new(scene.one);
    let mut two = Part::new(scene.two);
    do_both(rt, alloc, ide, first, &mut one, &mut lane, &mut two, stage);
    meet(ide, lane, first);
    let after = do_all(rt, alloc, ide, first, scene.after, stage);
    joined(before?, one.said?, two.said?, after?)
}

/// The answers as one text.
fn joined(before: String, one: String, two: String, after: String) -> Result<String, AllocError> {
    let mut said = before;
    said.push_str(&one)?;
    said.push_str(&two)?;
    said.push_str(&after)?;
    Ok(said)
}

/// The pass of a lane.
fn split(ide: &SharedIde, first: &mut IdePass) -> IdePass
    requires own { IsIdePassOf ide.now first.old }
    requires leads { (ide_view first.old).number ≡ Some 0 }
    requires given { (ide_view first.old).drawn ≡ 1 }
    ensures lane { IsLane ide.now result }
    ensures own { IsIdePassOf ide.now first.new }
    ensures leads { (ide_view first.new).number ≡ Some 0 }
    ensures given { (ide_view first.new).drawn ≡ 2 }
    ensures ends { (ide_view first.new).ended ≡ (ide_view first.old).ended }
{
    match ide.split(first) {
        Ok(pass) => pass,
        Err(_) => unreachable!(),
    }
}

/// The end of a lane.
fn meet(ide: &SharedIde, lane: IdePass, first: &mut IdePass)
    requires lane { IsLane ide.now lane }
    requires own { IsIdePassOf ide.now first.old }
    ensures own { IsIdePassOf ide.now first.new }
    ensures leads { (ide_view first.new).number ≡ (ide_view first.old).number }
    ensures given { (ide_view first.new).drawn ≡ (ide_view first.old).drawn }
    ensures ends { length (ide_view first.new).ended ≡ length (ide_view first.old).ended + 1 }
{
    ide.meet(lane, first);
}

/// What both do at once, each in a thread of its own.
fn do_both<R: Threads + Wait + Sync>(
    rt: &R,
    alloc: Global,
    ide: &SharedIde,
    first: &mut IdePass,
    one: &mut Part,
    lane: &mut IdePass,
    two: &mut Part,
    stage: &Stage,
)
    requires first { IsIdePassOf ide.now first.old }
    requires lane { IsLane ide.now lane.old }
    ensures first { HasActed ide.now first.old first.new }
    ensures lane { IsLane ide.now lane.new }
{
    join_mut(
        rt,
        &mut || do_first(rt, alloc, ide, first, one, stage),
        &mut || do_lane(rt, alloc, ide, lane, two, stage),
    );
}

/// What the first pass does beside a lane.
fn do_first<R: Threads + Wait>(
    rt: &R,
    alloc: Global,
    ide: &SharedIde,
    first: &mut IdePass,
    part: &mut Part,
    stage: &Stage,
)
    requires { IsIdePassOf ide.now first.old }
    ensures { HasActed ide.now first.old first.new }
{
    part.said = do_all(rt, alloc, ide, first, part.actions, stage);
}

/// What a lane does.
fn do_lane<R: Threads + Wait>(
    rt: &R,
    alloc: Global,
    ide: &SharedIde,
    lane: &mut IdePass,
    part: &mut Part,
    stage: &Stage,
)
    requires { IsLane ide.now lane.old }
    ensures { IsLane ide.now lane.new }
{
    part.said = do_all(rt, alloc, ide, lane, part.actions, stage);
}

static SHARINGS: [Sharing; 5] = [
    // The file is written while its index data are made.
    Sharing {
        before: &[Action::Create(1)],
        one: &[Action::Steps(1), Action::Steps(1)],
        two: &[Action::Start, Action::Write(1), Action::End],
        after: &[Action::Renew, Action::Settle],
        holds: &UNDER_JOB,
        said: &[
            "at 1 accepted; stale 1 1 2; at 3 taken; told; at 2 accepted; told; renewed; at 3 smart; ",
        ],
    },
    // The file is deleted while its index data are made.
    Sharing {
        before: &[Action::Create(1)],
        one: &[Action::Steps(1), Action::Steps(1)],
        two: &[Action::Start, Action::Delete, Action::End],
        after: &[],
        holds: &UNDER_JOB,
        said: &["at 1 accepted; gone 1; at 2 idle; told; at 2 accepted; told; "],
    },
    // Both make data of the same file at once.
    Sharing {
        before: &[Action::Create(1)],
        one: &[Action::Steps(1)],
        two: &[Action::Steps(1)],
        after: &[Action::Steps(1)],
        holds: &[Hold {
            at: Spot::Made,
            until: Spot::Made,
            times: 2,
        }],
        said: &[
            "at 1 accepted; at 2 taken; at 3 taken; at 3 idle; ",
            "at 1 accepted; at 3 taken; at 2 taken; at 3 idle; ",
        ],
    },
    // A settle of so many files that several threads make their data.
    Sharing {
        before: &[Action::Create(3000), Action::Settle, Action::Steps(1)],
        one: &[],
        two: &[],
        after: &[],
        holds: &[],
        said: &["at 3000 accepted; at 6000 smart; at 6000 idle; "],
    },
    // A settle of two files for one of which the history has room.
    Sharing {
        before: &[
            Action::Create(2),
            Action::Rewrite(1_048_573),
            Action::Settle,
            Action::Steps(1),
            Action::Delete,
        ],
        one: &[],
        two: &[],
        after: &[],
        holds: &[],
        said: &[
            "at 2 accepted; at 1048575 accepted; at 1048576 full; at 1048576 full; at 1048576 refused history-full; ",
        ],
    },
];

/// Files each of which gives a hint when it is created and when it is written, more than there is room for.
static HINTS: Sharing = Sharing {
    before: &[
        Action::Create(1030),
        Action::Settle,
        Action::Steps(1030),
        Action::Write(1030),
        Action::Steps(1030),
        Action::Steps(1),
    ],
    one: &[],
    two: &[],
    after: &[],
    holds: &[],
    said: &[
        "at 1030 accepted; at 2060 smart; at 2060 idle; at 3090 accepted; at 4120 taken; at 4120 idle; ",
    ],
};

/// The files that the steps of `HINTS` take in: all by the settle, those whose hints found room from the last one on, and
/// the others from the first one on.
fn in_order_of_hints(alloc: Global) -> Result<Vec<u32>, AllocError> {
    let mut files = Vec::new(alloc);
    for before in 0..1030 {
        files.push(before + 1)?;
    }
    for hint in 0..1024 {
        files.push(1030 - hint)?;
    }
    for before in 0..6 {
        files.push(before + 1)?;
    }
    Ok(files)
}

/// The files that were taken in, in order.
fn intakes(alloc: Global, history: &History) -> Result<Vec<u32>, AllocError> {
    let mut files = Vec::new(alloc);
    for before in 0..history.len() {
        if let Some(file) = intake_of(history.get(before + 1)) {
            files.push(file)?;
        }
    }
    Ok(files)
}

/// The file that an entry takes in, where it is an intake.
fn intake_of(entry: &Entry) -> Option<u32> {
    match entry.changes.as_slice() {
        [Change::Intake { file, .. }] => Some(*file),
        _ => None,
    }
}

/// Whether the steps of `HINTS` take the files in in the order of the hints, of which 2,048 find room. It may block.
pub fn are_hints_followed<R: Threads + Wait + Sync>(
    rt: &R,
    alloc: Global,
) -> Result<bool, AllocError> {
    let shared = share(rt, alloc, &HINTS)?;
    Ok(
        shared.hints == 2048
            && is_among(&shared.said, HINTS.said)
            && is_in_order_of_hints(alloc, &shared.history)?,
    )
}

/// Whether a history's intakes are of the files that the steps of `HINTS` take in.
fn is_in_order_of_hints(alloc: Global, history: &History) -> Result<bool, AllocError> {
    let files = intakes(alloc, history)?;
    let expected = in_order_of_hints(alloc)?;
    Ok(files.as_slice() == expected.as_slice())
}
