//! The steps on a workspace that threads share.
ghost use Rattle.std.specs.Prelude.{◌≡◌};
ghost use Rattle.shared_ide.specs.Passes.{IsIdePassOf};
ghost use Rattle.refused_calls.specs.Passes.{StaysIn};

use crate::steps::{STEPS, Told, change_of, group_of, question, told};
use action_lock::{Gate, Point};
use shared_ide::{
    ChangeRefusal, GroupChangeRefusal, IdePass, Reply, SettleRefusal, SharedIde, SoftAskRefusal,
};
use std::alloc::{AllocError, Global};
use std::io;
use std::sync::Wait;
use std::thread::Threads;
use write_history::Changes;

/// A gate at which nobody waits, and a worker ends where nothing is to be done.
struct Open;

impl Gate for Open {
    fn at(&self, _: Point) -> bool {
        false
    }
}

/// Does each step, and tells what the question is answered behind it. May block.
pub fn play(
    rt: &(impl Print + Threads + Wait),
    alloc: Global,
    ide: &SharedIde,
    pass: &mut IdePass,
) -> io::Result<()>
    requires { IsIdePassOf ide.now pass.old }
    ensures { StaysIn ide.now pass.old pass.new }
{
    for step in 0..STEPS {
        play_step(rt, alloc, ide, pass, step)?;
    }
    Ok(())
}

/// Does a step, once more where it is refused, and tells what the question is answered. Where memory was refused, what
/// readers share is made anew before anything is asked. May block.
fn play_step(
    rt: &(impl Print + Threads + Wait),
    alloc: Global,
    ide: &SharedIde,
    pass: &mut IdePass,
    step: u32,
) -> io::Result<()>
    requires { IsIdePassOf ide.now pass.old }
    ensures { StaysIn ide.now pass.old pass.new }
{
    if act(rt, alloc, ide, pass, step).is_err() {
        ide.renew(rt, pass);
        let now = seen(rt, alloc, ide, pass)?;
        println!(rt; "refused {step}: {now}")?;
        act(rt, alloc, ide, pass, step)?;
    }
    let now = seen_at_last(rt, alloc, ide, pass)?;
    println!(rt; "{step}: {now}")?;
    Ok(())
}

/// Does a step. May block.
fn act(
    rt: &(impl Threads + Wait),
    alloc: Global,
    ide: &SharedIde,
    pass: &mut IdePass,
    step: u32,
) -> Told<()>
    requires { IsIdePassOf ide.now pass.old }
    ensures { StaysIn ide.now pass.old pass.new }
{
    match step {
        1 => group(rt, alloc, ide, pass),
        2 => ide.index_step(rt, alloc, pass, &Open).map(|_| ()),
        3 => settle(rt, alloc, ide, pass),
        10 => ide.worker(rt, alloc, pass, &Open).map(|_| ()),
        11 => ask_softly(rt, alloc, ide, pass),
        _ => change(rt, alloc, ide, pass, step),
    }
}

/// Makes the change of a step. May block.
fn change(rt: &impl Wait, alloc: Global, ide: &SharedIde, pass: &mut IdePass, step: u32) -> Told<()>
    requires { IsIdePassOf ide.now pass.old }
    ensures { StaysIn ide.now pass.old pass.new }
{
    let change = change_of(alloc, step)?;
    match ide.change(rt, alloc, pass, 1, change) {
        Err(ChangeRefusal::OutOfMemory) => Err(AllocError),
        _ => Ok(()),
    }
}

/// Makes the changes of the group. May block.
fn group(rt: &impl Wait, alloc: Global, ide: &SharedIde, pass: &mut IdePass) -> Told<()>
    requires { IsIdePassOf ide.now pass.old }
    ensures { StaysIn ide.now pass.old pass.new }
{
    let changes = Changes::from_vec(group_of(alloc)?);
    match ide.change_group(rt, alloc, pass, 1, changes) {
        Err(GroupChangeRefusal::OutOfMemory) => Err(AllocError),
        _ => Ok(()),
    }
}

/// Takes all unready files in. May block.
fn settle(
    rt: &(impl Threads + Wait),
    alloc: Global,
    ide: &SharedIde,
    pass: &mut IdePass,
) -> Told<()>
    requires { IsIdePassOf ide.now pass.old }
    ensures { StaysIn ide.now pass.old pass.new }
{
    match ide.settle(rt, alloc, pass, 1) {
        Err(SettleRefusal::OutOfMemory) => Err(AllocError),
        _ => Ok(()),
    }
}

/// Asks softly. May block.
fn ask_softly(rt: &impl Wait, alloc: Global, ide: &SharedIde, pass: &mut IdePass) -> Told<()>
    requires { IsIdePassOf ide.now pass.old }
    ensures { StaysIn ide.now pass.old pass.new }
{
    let question = question(alloc)?;
    match ide.soft_ask(rt, alloc, pass, 1, &question, &Open) {
        Err(SoftAskRefusal::OutOfMemory) => Err(AllocError),
        _ => Ok(()),
    }
}

/// What the question is answered, asked once more where that is refused. May block.
fn seen_at_last(rt: &impl Wait, alloc: Global, ide: &SharedIde, pass: &mut IdePass) -> Told<String>
    requires { IsIdePassOf ide.now pass.old }
    ensures { StaysIn ide.now pass.old pass.new }
{
    match seen(rt, alloc, ide, pass) {
        Ok(answer) => Ok(answer),
        Err(_) => {
            ide.renew(rt, pass);
            seen(rt, alloc, ide, pass)
        }
    }
}

/// What the question is answered. May block.
fn seen(rt: &impl Wait, alloc: Global, ide: &SharedIde, pass: &mut IdePass) -> Told<String>
    requires { IsIdePassOf ide.now pass.old }
    ensures { StaysIn ide.now pass.old pass.new }
{
    let question = question(alloc)?;
    let replied = ide.ask(rt, alloc, pass, &question, &Open)?;
    match &replied.reply {
        Reply::Found(answer) => told(alloc, replied.at, Some(answer)),
        _ => told(alloc, replied.at, None),
    }
}
