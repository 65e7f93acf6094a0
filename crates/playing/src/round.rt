//! A round: all lanes of a script and some workers, each on a thread of its own, between prelude and last section.
ghost use Rattle.std.specs.Prelude.{◌≡◌, ℕ, ◌+◌, ◌<◌, ◌≤◌, Some, IfOk, OnOk, OnErr, All, length, slice_index_or};
ghost use Rattle.transcripts.specs.Fits.{run_beside};
ghost use Rattle.shared_ide.specs.Passes.{ide_view, IsSameIdePass};
ghost use Rattle.shared_ide.specs.Passes.{IsIdePassOf};
ghost use Rattle.playing.specs.Players.{CanRun, HasRun, IsDutyAt, HasBegun, CanMeet, HasMet, HaveGathered};
ghost use Rattle.playing.specs.Rounds.{IsAlone, HasPlayed};

use crate::outcomes::Outcomes;
use crate::player::{Duty, Outcome, Player, run_player};
use action_lock::Gate;
use crossbeam_utils::CachePadded;
use script_lang::Script;
use shared_ide::laws::passes_stay_the_same;
use shared_ide::{IdePass, SharedIde};
use std::alloc::{AllocError, Global};
use std::sync::Wait;
use std::thread::{Threads, for_each_mut};

/// How many lanes and workers go beside one another.
#[derive(Clone, Copy)]
pub(crate) struct Round {
    pub(crate) lanes: usize,
    pub(crate) workers: usize,
}

impl Round {
    /// Whether a lane has another lane or a worker beside it: only then may a soft question be given up.
    fn beside(self) -> bool
        requires { self.lanes + self.workers < 65536 }
        ensures { result ≡ run_beside self.lanes self.workers }
    {
        1 < self.lanes + self.workers
    }

    /// What the player at this place is for: lanes come first.
    fn duty(self, place: usize) -> Duty
        ensures { IsDutyAt self.lanes place result }
    {
        if place < self.lanes {
            Duty::Lane { index: place }
        } else {
            Duty::Worker
        }
    }
}

/// Plays all lanes of a script and so many workers. Their records and what the workers did are put behind the answers. Where
/// memory runs out, what was made so far stays. May block.
pub(crate) fn play_round<R: Threads + Wait + Sync, G: Gate + Sync>(
    rt: &R,
    alloc: Global,
    ide: &SharedIde,
    pass: &mut IdePass,
    script: &Script,
    workers: u32,
    answers: &mut Outcomes,
    gate: &G,
) -> Result<(), AllocError>
    requires pass { IsIdePassOf ide.now pass.old }
    requires alone { IsAlone (ide_view pass.old) }
    requires one { (ide_view pass.old).drawn ≡ 1 }
    requires few { workers ≤ 8 }
    ensures pass { IsIdePassOf ide.now pass.new × IsSameIdePass pass.old pass.new }
    ensures alone { IsAlone (ide_view pass.new) }
    ensures played { OnOk result
        (HasPlayed script.now.lanes workers (ide_view pass.old)
        (ide_view pass.new) answers.old answers.new) }
{
    let round = Round {
        lanes: script.lanes(),
        workers: workers as usize,
    };
    let mut players = begin_players(alloc, ide, pass, round)?;
    run_players(rt, alloc, ide, script, round.beside(), &mut players, gate);
    let met = meet_players(ide, pass, players, answers);
    ide.is_last(pass);
    met
}

/// A player for each lane and worker of a round, in order of their seats. When memory runs out no number is given.
fn begin_players(
    alloc: Global,
    ide: &SharedIde,
    pass: &mut IdePass,
    round: Round,
) -> Result<Vec<Player>, AllocError>
    requires pass { IsIdePassOf ide.now pass.old }
    requires leads { (ide_view pass.old).number ≡ Some 0 }
    requires few { (ide_view pass.old).drawn + round.lanes + round.workers ≤ 65536 }
    ensures pass { IsIdePassOf ide.now pass.new × IsSameIdePass pass.old pass.new }
    ensures players { IfOk result
        (λ players. HasBegun ide.now round.lanes (ide_view pass.old)
        (ide_view pass.new) players.items) }
    ensures count { IfOk result (λ players. length players.items ≡ round.lanes + round.workers) }
    ensures none { OnErr result (ide_view pass.new ≡ ide_view pass.old) }
{
    passes_stay_the_same();
    let count = round.lanes + round.workers;
    let mut players = Vec::with_capacity(alloc, count)?;
    for place in 0..count {
        let pass = match ide.split(pass) {
            Ok(pass) => pass,
            Err(_) => unreachable!(),
        };
        let duty = round.duty(place);
        let outcome = Outcome::Nothing;
        let apart = CachePadded::new(());
        players
            .push(Player {
                pass,
                duty,
                outcome,
                apart,
            })
            .unwrap();
    }
    Ok(players)
}

/// Runs all players, each on a thread of its own where one can be had. May block.
fn run_players<R: Threads + Wait + Sync, G: Gate + Sync>(
    rt: &R,
    alloc: Global,
    ide: &SharedIde,
    script: &Script,
    beside: bool,
    players: &mut Vec<Player>,
    gate: &G,
)
    requires { All (CanRun ide.now script.now) players.old.items }
    ensures same { length players.new.items ≡ length players.old.items }
    ensures run { (k : ℕ) (d : Player) → k < length players.old.items
        → HasRun ide.now script.now beside (slice_index_or players.old.items k d)
        (slice_index_or players.new.items k d) }
{
    run_reversed(rt, alloc, ide, script, beside, players.as_mut_slice(), gate);
}

/// Runs all players, the first of them first where threads are wanting: so a lane never waits behind a worker that waits for
/// it. May block.
fn run_reversed<R: Threads + Wait + Sync, G: Gate + Sync>(
    rt: &R,
    alloc: Global,
    ide: &SharedIde,
    script: &Script,
    beside: bool,
    players: &mut [Player],
    gate: &G,
)
    requires { All (CanRun ide.now script.now) players.old }
    ensures same { length players.new ≡ length players.old }
    ensures run { (k : ℕ) (d : Player) → k < length players.old
        → HasRun ide.now script.now beside (slice_index_or players.old k d)
        (slice_index_or players.new k d) }
{
    players.reverse();
    run_each(rt, alloc, ide, script, beside, players, gate);
    players.reverse();
}

/// Runs all players, with as many threads as there are players. A thread that can't be had leaves its work to the caller, the
/// last player first. May block.
fn run_each<R: Threads + Wait + Sync, G: Gate + Sync>(
    rt: &R,
    alloc: Global,
    ide: &SharedIde,
    script: &Script,
    beside: bool,
    players: &mut [Player],
    gate: &G,
)
    requires { All (CanRun ide.now script.now) players.old }
    ensures same { length players.new ≡ length players.old }
    ensures run { (k : ℕ) (d : Player) → k < length players.old
        → HasRun ide.now script.now beside (slice_index_or players.old k d)
        (slice_index_or players.new k d) }
{
    let threads = players.len();
    if threads == 0 {
        return;
    }
    for_each_mut(
        rt,
        players,
        threads,
        &|_index: usize, player: &mut Player| -> ()
            requires { CanRun ide.now script.now player.now }
            ensures { HasRun ide.entry.now script.entry.now beside
                player.entry.now player.exit.now }
        { run_player(rt, alloc, ide, script, beside, player, gate) },
    );
}

/// Meets the passes of all players, and puts what they have done behind the answers, in order of their seats.
fn meet_players(
    ide: &SharedIde,
    pass: &mut IdePass,
    players: Vec<Player>,
    answers: &mut Outcomes,
) -> Result<(), AllocError>
    requires pass { IsIdePassOf ide.now pass.old }
    requires players { All (CanMeet ide.now) players.items }
    ensures pass { IsIdePassOf ide.now pass.new × IsSameIdePass pass.old pass.new }
    ensures met { HasMet players.items (ide_view pass.old) (ide_view pass.new) }
    ensures taken { OnOk result (HaveGathered players.items answers.old answers.new) }
{
    passes_stay_the_same();
    let mut left = players;
    let mut whole = true;
    while !left.is_empty() {
        let Player {
            pass: other,
            duty: _,
            outcome,
            apart: _,
        } = left.remove(0);
        ide.meet(other, pass);
        whole &= answers.take(outcome).is_ok();
    }
    left.destroy_empty();
    if whole { Ok(()) } else { Err(AllocError) }
}
