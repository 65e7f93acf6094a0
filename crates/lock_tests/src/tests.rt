//! What a clause cannot say: that the calls succeed, and that readers are in side by side.
use crate::scenes::SCENES;
use crate::stage::{Left, comes_back, is_right};
use crate::tickets::catches_up;
use std::alloc::Global;
use std::sync::Wait;
use std::thread::Threads;

/// How many scenes are right, up to the first that isn't.
fn right_scenes<R: Threads + Wait + Sync>(rt: &R, alloc: Global) -> Result<usize, Left> {
    for k in 0..SCENES.len() {
        if !is_right(rt, alloc, &SCENES[k])? {
            return Ok(k);
        }
    }
    Ok(SCENES.len())
}

#[test]
fn scenes(rt: HostRuntime) {
    match right_scenes(&rt, rt.alloc()) {
        Ok(right) => assert_eq!(rt; right, SCENES.len()),
        Err((_lock, _pass)) => panic!(rt; "all have been met"),
    }
}

#[test]
fn a_lock_needs_a_share_for_each_place(rt: HostRuntime) {
    assert!(rt; comes_back(rt.alloc(), 0) && comes_back(rt.alloc(), 31));
}

#[test]
fn passes_catch_up_by_tickets(rt: HostRuntime) {
    match catches_up(&rt, rt.alloc()) {
        Ok(right) => assert!(rt; right),
        Err((_lock, _pass)) => panic!(rt; "all have been met"),
    }
}
