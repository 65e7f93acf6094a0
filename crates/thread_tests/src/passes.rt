//! Calls on the shared workspace by one pass, one after another, and what they are answered.
ghost use Rattle.std.specs.Prelude.{◌≡◌, true, IfOk};
ghost use Rattle.write_history.specs.Changes.{is_edit};
ghost use Rattle.shared_ide.specs.Passes.{IsIdePassOf, ide_view};
ghost use Rattle.thread_tests.specs.Passes.{HasKept};

use crate::stage::Stage;
use action_lock::{Gate, Point};
use ide_text::{Name, SharedText, Text};
use shared_ide::{ChangeRefusal, IdePass, SettleRefusal, SharedIde, Stepped};
use std::alloc::{AllocError, Global};
use std::sync::Wait;
use std::thread::Threads;
use write_history::Change;

/// A call, or several of one kind, the last of which is answered for all.
#[derive(Clone, Copy)]
pub enum Action {
    /// So many files are created, the first one first.
    Create(u32),
    /// They are written, the last one first.
    Write(u32),
    /// The first file is written so often.
    Rewrite(u32),
    /// The first file is deleted.
    Delete,
    Settle,
    /// What readers share is made anew.
    Renew,
    /// So many steps of a worker, at least one.
    Steps(u32),
    /// The gate is told that a lane begins line 3.
    Start,
    /// The gate is told that lane 1 has ended.
    End,
}

/// Does the actions in order. Their answers, each with a semicolon.
pub fn do_all<R: Threads + Wait>(
    rt: &R,
    alloc: Global,
    ide: &SharedIde,
    pass: &mut IdePass,
    actions: &[Action],
    stage: &Stage,
) -> Result<String, AllocError>
    requires { IsIdePassOf ide.now pass.old }
    ensures { IsIdePassOf ide.now pass.new × HasKept (ide_view pass.old) (ide_view pass.new) }
{
    let mut said = String::new(alloc);
    for &action in actions {
        let answer = act(rt, alloc, ide, pass, action, stage)?;
        said.push_str(&answer)?;
        said.push_str("; ")?;
    }
    Ok(said)
}

/// Does an action, and tells what it was answered. It may block.
fn act<R: Threads + Wait>(
    rt: &R,
    alloc: Global,
    ide: &SharedIde,
    pass: &mut IdePass,
    action: Action,
    stage: &Stage,
) -> Result<String, AllocError>
    requires { IsIdePassOf ide.now pass.old }
    ensures { IsIdePassOf ide.now pass.new × HasKept (ide_view pass.old) (ide_view pass.new) }
{
    match action {
        Action::Create(count) => change_many(rt, alloc, ide, pass, action, count),
        Action::Write(count) => change_many(rt, alloc, ide, pass, action, count),
        Action::Rewrite(count) => change_many(rt, alloc, ide, pass, action, count),
        Action::Delete => change_many(rt, alloc, ide, pass, action, 1),
        Action::Settle => settle(rt, alloc, ide, pass),
        Action::Renew => renew(rt, alloc, ide, pass),
        Action::Steps(count) => steps(rt, alloc, ide, pass, count, stage),
        Action::Start => tell(alloc, stage, Point::Start { seat: 1, line: 3 }),
        Action::End => tell(alloc, stage, Point::Ended { seat: 1 }),
    }
}

/// Tells the gate a point.
fn tell(alloc: Global, stage: &Stage, point: Point) -> Result<String, AllocError> {
    stage.at(point);
    String::from_str(alloc, "told")
}

/// So many changes of an action.
fn change_many<R: Wait>(
    rt: &R,
    alloc: Global,
    ide: &SharedIde,
    pass: &mut IdePass,
    action: Action,
    count: u32,
) -> Result<String, AllocError>
    requires { IsIdePassOf ide.now pass.old }
    ensures { IsIdePassOf ide.now pass.new × HasKept (ide_view pass.old) (ide_view pass.new) }
{
    let mut last = String::new(alloc);
    for number in 0..count {
        let change = change_of(alloc, action, number)?;
        let answer = ide.change(rt, alloc, pass, 1, change);
        last = shown_change(alloc, answer)?;
    }
    Ok(last)
}

/// The change of an action with this number, from 0.
fn change_of(alloc: Global, action: Action, number: u32) -> Result<Change, AllocError>
    ensures { IfOk result (λ change. is_edit change ≡ true) }
{
    Ok(match action {
        Action::Create(_) => Change::Create {
            path: path_of(alloc, number)?,
            text: text_of(alloc, "class A {}")?,
        },
        Action::Write(count) => Change::Write {
            path: path_of(alloc, count.saturating_sub(number).saturating_sub(1))?,
            text: text_of(alloc, "class B {}")?,
        },
        Action::Rewrite(_) => Change::Write {
            path: path_of(alloc, 0)?,
            text: text_of(alloc, "class C {}")?,
        },
        _ => Change::Delete {
            path: path_of(alloc, 0)?,
        },
    })
}

/// The path of a file.
fn path_of(alloc: Global, number: u32) -> Result<Name, AllocError> {
    Name::of_string(alloc, format!(in alloc; "F{number}.java")?)
}

/// A text of a file. One that is none, or too long, counts as running out of memory.
fn text_of(alloc: Global, text: &str) -> Result<SharedText, AllocError> {
    match Text::from_utf8(alloc, text.as_bytes()) {
        Ok(text) => SharedText::new(alloc, text),
        Err(_) => Err(AllocError),
    }
}

/// What a change was answered.
fn shown_change(alloc: Global, answer: Result<u64, ChangeRefusal>) -> Result<String, AllocError> {
    match answer {
        Ok(at) => format!(in alloc; "at {at} accepted"),
        Err(ChangeRefusal::Refused { at, why }) => format!(in alloc; "at {at} refused {why}"),
        Err(ChangeRefusal::OutOfMemory) => Err(AllocError),
    }
}

/// All unready files.
fn settle<R: Threads + Wait>(
    rt: &R,
    alloc: Global,
    ide: &SharedIde,
    pass: &mut IdePass,
) -> Result<String, AllocError>
    requires { IsIdePassOf ide.now pass.old }
    ensures { IsIdePassOf ide.now pass.new × HasKept (ide_view pass.old) (ide_view pass.new) }
{
    match ide.settle(rt, alloc, pass, 1) {
        Ok(at) => format!(in alloc; "at {at} smart"),
        Err(SettleRefusal::HistoryFull { at }) => format!(in alloc; "at {at} full"),
        Err(SettleRefusal::OutOfMemory) => Err(AllocError),
    }
}

/// What readers share.
fn renew<R: Wait>(
    rt: &R,
    alloc: Global,
    ide: &SharedIde,
    pass: &mut IdePass,
) -> Result<String, AllocError>
    requires { IsIdePassOf ide.now pass.old }
    ensures { IsIdePassOf ide.now pass.new × HasKept (ide_view pass.old) (ide_view pass.new) }
{
    ide.renew(rt, pass);
    String::from_str(alloc, "renewed")
}

/// So many steps, at least one. What the last was answered.
fn steps<R: Wait>(
    rt: &R,
    alloc: Global,
    ide: &SharedIde,
    pass: &mut IdePass,
    count: u32,
    stage: &Stage,
) -> Result<String, AllocError>
    requires { IsIdePassOf ide.now pass.old }
    ensures { IsIdePassOf ide.now pass.new × HasKept (ide_view pass.old) (ide_view pass.new) }
{
    for _ in 1..count {
        ide.index_step(rt, alloc, pass, stage)?;
    }
    shown_step(alloc, ide.index_step(rt, alloc, pass, stage)?)
}

/// What a step was answered.
fn shown_step(alloc: Global, step: Stepped) -> Result<String, AllocError> {
    match step {
        Stepped::Idle { at } => format!(in alloc; "at {at} idle"),
        Stepped::Gone { file } => format!(in alloc; "gone {file}"),
        Stepped::Stale {
            file,
            made,
            present,
        } => format!(in alloc; "stale {file} {made} {present}"),
        Stepped::Refused { at } => format!(in alloc; "at {at} full"),
        Stepped::Taken { position } => format!(in alloc; "at {position} taken"),
    }
}
