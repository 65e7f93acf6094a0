//! A step of indexing: one unready file is taken up, and its data go in where they still fit.
ghost use Rattle.std.specs.Prelude.{◌≡◌, IfOk, OnErr};
ghost use Rattle.action_lock.specs.Passes.{view_of, IsPassOf};
ghost use Rattle.ide_calls.specs.Made.{Continues};
ghost use Rattle.ide_calls.specs.Step.{HasStepped};

use crate::IdeHome;
use crate::first_read::{FirstRead, first_read};
use crate::intake::take_in;
use crate::step::Stepped;
use crate::stored::make_stored;
use action_lock::{ActionLock, Gate, Pass, Point};
use index_store::Store;
use std::alloc::{AllocError, Global};
use std::sync::Wait;

/// Takes up the hinted file where it is unready, else the first unready one from an id that goes by the pass's number and the
/// length of the history, so that passes seldom take up the same one. Its index data are the store's, or are made, outside the lock,
/// and go in where the file is still at the same stamp. The gate is told `Reading` while the first read is still held, and `Made`
/// before the intent is asked for. May block.
pub fn index_step<R: Wait, G: Gate>(
    rt: &R,
    alloc: Global,
    lock: &ActionLock<IdeHome>,
    store: &Store,
    pass: &mut Pass<IdeHome>,
    hint: Option<u32>,
    gate: &G,
) -> Result<Stepped, AllocError>
    requires { IsPassOf lock.now pass.old }
    ensures pass { Continues lock.now pass.old pass.new }
    ensures ok { IfOk result (HasStepped hint (view_of pass.old) (view_of pass.new)) }
    ensures err { OnErr result ((view_of pass.new).mine ≡ (view_of pass.old).mine) }
{
    let seat = pass.number();
    let FirstRead { at, job } = first_read(rt, alloc, lock, pass, seat, hint, gate)?;
    let Some(job) = job else {
        return Ok(Stepped::Idle { at });
    };
    let made = make_stored(alloc, store, job)?;
    gate.at(Point::Made {
        seat,
        file: made.file,
        stamp: made.stamp,
    });
    take_in(rt, alloc, lock, pass, made)
}
