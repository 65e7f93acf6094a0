//! The steps on a state that nobody shares.
ghost use Rattle.ide_world.specs.Ready.{IsReadyFor};

use crate::steps::{STEPS, Told, change_of, group_of, question, told};
use ide_world::{
    Ready, State, empty, install, job, make, prepare, prepare_group, prepare_intake, reserve,
};
use query_engine::{AskRefusal, ask_unwatched};
use std::alloc::{AllocError, Global};
use std::io;
use write_history::Refusal;

/// Does each step on a state of its own, and tells what the question is answered behind it.
pub fn play(rt: &impl Print, alloc: Global) -> io::Result<()> {
    let mut state = empty(alloc)?;
    play_on(rt, alloc, &mut state)
}

/// Does each step, and tells what the question is answered behind it.
fn play_on(rt: &impl Print, alloc: Global, state: &mut State) -> io::Result<()> {
    for step in 0..STEPS {
        play_step(rt, alloc, state, step)?;
    }
    Ok(())
}

/// Does a step, once more where it is refused, and tells what the question is answered.
fn play_step(rt: &impl Print, alloc: Global, state: &mut State, step: u32) -> io::Result<()> {
    if act(alloc, state, step).is_err() {
        let now = seen(alloc, state)?;
        println!(rt; "refused {step}: {now}")?;
        act(alloc, state, step)?;
    }
    let now = seen_at_last(alloc, state)?;
    println!(rt; "{step}: {now}")?;
    Ok(())
}

/// Does a step.
fn act(alloc: Global, state: &mut State, step: u32) -> Told<()> {
    match step {
        1 => group(alloc, state),
        2 | 3 | 10 => index(alloc, state),
        11 => Ok(()),
        _ => change(alloc, state, step),
    }
}

/// Makes the change of a step.
fn change(alloc: Global, state: &mut State, step: u32) -> Told<()> {
    let change = change_of(alloc, step)?;
    match prepare(alloc, state, &change) {
        Ok(ready) => go_in(state, ready),
        Err(why) => ended(why),
    }
}

/// Makes the changes of the group.
fn group(alloc: Global, state: &mut State) -> Told<()> {
    let changes = group_of(alloc)?;
    match prepare_group(alloc, state, changes.as_slice()) {
        Ok(ready) => go_in(state, ready),
        Err(refusal) => ended(refusal.why),
    }
}

/// Takes the first unready file in, if there is one.
fn index(alloc: Global, state: &mut State) -> Told<()> {
    match state.lowest_unready() {
        Some(file) => take_in(alloc, state, file),
        None => Ok(()),
    }
}

/// Takes a file in, if it is unready.
fn take_in(alloc: Global, state: &mut State, file: u32) -> Told<()> {
    let Some(job) = job(state, file)? else {
        return Ok(());
    };
    let made = make(alloc, job)?;
    match prepare_intake(alloc, state, made) {
        Ok(ready) => go_in(state, ready),
        Err(why) => ended(why),
    }
}

/// Lets in what is ready.
fn go_in(state: &mut State, ready: Ready) -> Told<()>
    requires { IsReadyFor state.old.world ready }
{
    reserve(state, &ready)?;
    install(state, ready);
    Ok(())
}

/// The end of a step that was refused.
fn ended(why: Refusal) -> Told<()> {
    match why {
        Refusal::OutOfMemory => Err(AllocError),
        _ => Ok(()),
    }
}

/// What the question is answered, asked once more where that is refused.
fn seen_at_last(alloc: Global, state: &State) -> Told<String> {
    match seen(alloc, state) {
        Ok(answer) => Ok(answer),
        Err(_) => seen(alloc, state),
    }
}

/// What the question is answered.
fn seen(alloc: Global, state: &State) -> Told<String> {
    let question = question(alloc)?;
    match ask_unwatched(alloc, state, &question) {
        Ok(answer) => told(alloc, state.entries(), Some(&answer)),
        Err(AskRefusal::OutOfMemory) => Err(AllocError),
        Err(_) => told(alloc, state.entries(), None),
    }
}
