//! What a clause cannot say: that a hint finds room, and that one that is there is found.
use crate::filling::{empty, fill};
use crate::parties::{Party, came_once, run};
use job_queue::{Full, Hint, JobQueue};
use std::test::Fail;

#[test]
fn the_queue_has_room_for_1024_hints(rt: HostRuntime) -> Result<(), Fail> {
    let (queue, mut pass) = JobQueue::new(rt.alloc())?;
    let refused = fill(&rt, &queue, &mut pass, 1024);
    assert!(rt; refused.is_none());
    let refused = fill(&rt, &queue, &mut pass, 1);
    let hint = Hint {
        file: 0,
        pusher: 0,
        turn: 1025,
    };
    assert!(rt; refused == Some(Full { hint }));
    assert!(rt; pass.offered() == 1024);
    let taken = empty(&rt, &queue, &mut pass, 1025);
    assert!(rt; taken == Some(1024));
    assert!(rt; queue.is_last(&pass));
    queue.close(pass);
    Ok(())
}

#[test]
fn each_hint_is_taken_by_one_of_two(rt: HostRuntime) -> Result<(), Fail> {
    let alloc = rt.alloc();
    let (queue, mut pass) = JobQueue::new(alloc)?;
    let one = Party::new(alloc, queue.split(&mut pass), 300);
    let two = Party::new(alloc, queue.split(&mut pass), 300);
    let three = Party::new(alloc, queue.split(&mut pass), 0);
    let four = Party::new(alloc, queue.split(&mut pass), 0);
    let mut parties = [one, two, three, four];
    run(&rt, &queue, 600, &mut parties);
    let [one, two, three, four] = parties;
    assert!(rt; one.pass.number() == 1 && two.pass.number() == 2);
    assert!(rt; three.pass.number() == 3 && four.pass.number() == 4);
    let first = one.end(&queue, &mut pass);
    let second = two.end(&queue, &mut pass);
    let third = three.end(&queue, &mut pass);
    let fourth = four.end(&queue, &mut pass);
    assert!(rt; first.is_some() && second.is_some());
    let (Some(third), Some(fourth)) = (third, fourth) else {
        panic!(rt; "the takers' turns ran out")
    };
    assert!(rt; third.len() + fourth.len() == 600);
    assert!(rt; came_once(&third, &fourth, 1, 300) && came_once(&third, &fourth, 2, 300));
    assert!(rt; queue.is_last(&pass));
    queue.close(pass);
    Ok(())
}
