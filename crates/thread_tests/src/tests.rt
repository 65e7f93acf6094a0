//! What a clause cannot say: that calls succeed, that threads run beside each other, and that their answers fit together.
use crate::crossing::are_crossings_right;
use crate::damaged::are_counted;
use crate::faults::{fault_of_lanes, fault_of_sessions};
use crate::gate::ends_with_its_lanes;
use crate::misfits::fault_of_misfits;
use crate::parts::is_played_in_parts;
use crate::running::{Drawn, fault_of_mistakes, fault_of_scenes, wrong_seed};
use crate::sharing::{are_hints_followed, fault_of_sharings};
use std::test::Fail;

#[test]
fn calls_of_two_passes(rt: HostRuntime) -> Result<(), Fail> {
    assert_eq!(rt; fault_of_sharings(&rt, rt.alloc())?, None);
    Ok(())
}

#[test]
fn hints_come_in_order(rt: HostRuntime) -> Result<(), Fail> {
    assert!(rt; are_hints_followed(&rt, rt.alloc())?);
    Ok(())
}

#[test]
fn lanes_and_workers_that_meet(rt: HostRuntime) -> Result<(), Fail> {
    assert_eq!(rt; fault_of_scenes(&rt, rt.alloc())?, None);
    Ok(())
}

#[test]
fn parsed_played_and_printed(rt: HostRuntime) -> Result<(), Fail> {
    assert!(rt; is_played_in_parts(&rt, rt.alloc())?);
    Ok(())
}

/// Workers with nothing to do go on until all lanes have ended.
#[test]
fn the_gate_ends_with_its_lanes(rt: HostRuntime) -> Result<(), Fail> {
    assert!(rt; ends_with_its_lanes(&rt, rt.alloc())?);
    Ok(())
}

/// A soft question that is given up; writes beside soft questions; workers that take files in.
#[test]
fn lanes_in_each_others_way(rt: HostRuntime) -> Result<(), Fail> {
    assert!(rt; are_crossings_right(&rt, rt.alloc())?);
    Ok(())
}

/// Four lanes with two hundred commands each, and none to four workers: half of fifty scripts.
static HALF: [Drawn; 1] = [Drawn {
    seeds: [0, 25],
    lanes: 4,
    count: 200,
    workers: 5,
}];

/// The other half; four lanes with four commands each, whose transcripts are damaged in each line; and sixteen lanes with
/// forty, and eight workers.
static OTHERS: [Drawn; 3] = [
    Drawn {
        seeds: [25, 50],
        lanes: 4,
        count: 200,
        workers: 5,
    },
    Drawn {
        seeds: [50, 70],
        lanes: 4,
        count: 4,
        workers: 5,
    },
    Drawn {
        seeds: [8, 9],
        lanes: 16,
        count: 40,
        workers: 9,
    },
];

#[test]
fn drawn_scripts(rt: HostRuntime) -> Result<(), Fail> {
    assert_eq!(rt; wrong_seed(&rt, rt.alloc(), &HALF)?, None);
    Ok(())
}

#[test]
fn other_drawn_scripts(rt: HostRuntime) -> Result<(), Fail> {
    assert_eq!(rt; wrong_seed(&rt, rt.alloc(), &OTHERS)?, None);
    Ok(())
}

#[test]
fn runs_of_other_scripts_are_wrong(rt: HostRuntime) -> Result<(), Fail> {
    assert_eq!(rt; fault_of_mistakes(&rt, rt.alloc())?, None);
    Ok(())
}

/// The forms that are judged are there.
#[test]
fn changes_and_damages_are_counted(rt: HostRuntime) -> Result<(), Fail> {
    assert!(rt; are_counted(rt.alloc())?);
    Ok(())
}

/// Of scripts without lanes and workers.
#[test]
fn changed_transcripts_are_bad(rt: HostRuntime) -> Result<(), Fail> {
    let fault = fault_of_sessions(&rt, rt.alloc())?;
    assert!(rt; fault.is_empty(), "{fault}");
    Ok(())
}

/// Of scripts with lanes and workers, those apart that the rules allow.
#[test]
fn changed_transcripts_of_lanes_are_told(rt: HostRuntime) -> Result<(), Fail> {
    let fault = fault_of_lanes(rt.alloc())?;
    assert!(rt; fault.is_empty(), "{fault}");
    Ok(())
}

#[test]
fn first_misfits_are_told(rt: HostRuntime) -> Result<(), Fail> {
    let fault = fault_of_misfits(rt.alloc())?;
    assert!(rt; fault.is_empty(), "{fault}");
    Ok(())
}
