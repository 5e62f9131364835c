// Schedules of single operations by hand, with what each must leave, and the first event that can't happen.
use crate::plays::{Play, events_of};
use bq_model::{Answer, Op, OutOfMemory, Shape};
use std::alloc::Global;
use std::process::Abort;
use std::test::Fail;
use step_core::{EventCause, ScheduleRefused, run_schedule};

/// A schedule, and what it leaves: the groups, each as its caller, its number and its operation, and the answer of each
/// caller's last command.
#[derive(Clone, Copy)]
struct Row<'a> {
    callers: u32,
    plays: &'a [Play<'a>],
    groups: &'a [(u32, u64, Op)],
    answers: &'a [Option<Answer>],
}

fn assert_leaves(rt: &impl Abort, alloc: Global, row: &Row) -> Result<(), Fail> {
    let shape = Shape::new(row.callers, 1, 2, 10, 5).ok_or("in limits")?;
    let events = events_of(alloc, row.plays)?;
    let machine = run_schedule(alloc, &shape, events.as_slice())
        .ok()
        .ok_or("runs")?;
    assert_eq!(rt; machine.history().len(), row.groups.len());
    for (group, wanted) in machine.history().iter().zip(row.groups) {
        assert_eq!(rt; (group.caller, group.batch), (wanted.0, wanted.1));
        assert_eq!(rt; group.ops.as_slice(), [wanted.2].as_slice());
    }
    let mut caller = 0;
    for answer in row.answers {
        if caller < machine.callers() {
            assert_eq!(rt;
                machine.answers(caller).as_slice().first().copied(),
                *answer
            );
            caller += 1;
        }
    }
    Ok(())
}

#[test]
fn schedules_by_hand_leave_what_they_must(rt: HostRuntime) -> Result<(), Fail> {
    let rows = [
        // An enqueue and a dequeue, one after the other.
        Row {
            callers: 1,
            plays: &[
                Play::Enq(0, 7),
                Play::Steps(0, 11),
                Play::Deq(0),
                Play::Steps(0, 12),
            ],
            groups: &[(0, 0, Op::Enq(7)), (0, 1, Op::Deq)],
            answers: &[Some(Answer::Got(7))],
        },
        // An empty queue: the head and its link are loaded, and the hazard word is cleared.
        Row {
            callers: 1,
            plays: &[Play::Deq(0), Play::Steps(0, 5)],
            groups: &[(0, 0, Op::Deq)],
            answers: &[Some(Answer::Empty)],
        },
        // The enqueue stops before it moves the tail. The dequeue moves it and begins again, and the enqueue's own exchange
        // of the tail fails. The dequeue retires the first dummy and doesn't free it, since the enqueue holds it.
        Row {
            callers: 2,
            plays: &[
                Play::Enq(0, 7),
                Play::Steps(0, 9),
                Play::Deq(1),
                Play::Steps(1, 18),
                Play::Steps(0, 2),
            ],
            groups: &[(0, 0, Op::Enq(7)), (1, 0, Op::Deq)],
            answers: &[Some(Answer::Done), Some(Answer::Got(7))],
        },
        // Both enqueues find the same empty link. The second exchange fails, and its caller moves the tail, loads it
        // again and links its row behind the other.
        Row {
            callers: 2,
            plays: &[
                Play::Enq(0, 1),
                Play::Enq(1, 2),
                Play::Steps(0, 8),
                Play::Steps(1, 8),
                Play::Steps(0, 1),
                Play::Steps(1, 13),
                Play::Steps(0, 2),
            ],
            groups: &[(0, 0, Op::Enq(1)), (1, 0, Op::Enq(2))],
            answers: &[Some(Answer::Done), Some(Answer::Done)],
        },
        // Both dequeues read the same value. The second exchange of the head fails, and its caller finds nothing left.
        Row {
            callers: 3,
            plays: &[
                Play::Enq(2, 4),
                Play::Steps(2, 11),
                Play::Deq(0),
                Play::Deq(1),
                Play::Steps(0, 6),
                Play::Steps(1, 6),
                Play::Steps(1, 7),
                Play::Steps(0, 6),
            ],
            groups: &[(2, 0, Op::Enq(4)), (1, 0, Op::Deq), (0, 0, Op::Deq)],
            answers: &[
                Some(Answer::Empty),
                Some(Answer::Got(4)),
                Some(Answer::Done),
            ],
        },
    ];
    for row in &rows {
        assert_leaves(&rt, rt.alloc(), row)?;
    }
    Ok(())
}

#[test]
fn first_event_that_cannot_happen_is_named(rt: HostRuntime) -> Result<(), Fail> {
    let shape = Shape::new(1, 2, 1, 10, 0).ok_or("in limits")?;
    let at = |event, cause| Some(ScheduleRefused::At { event, cause });
    let cases = [
        ([].as_slice(), None),
        (
            [Play::Steps(0, 1)].as_slice(),
            at(0, EventCause::IdleCaller),
        ),
        (
            [Play::Deq(0), Play::Deq(0)].as_slice(),
            at(1, EventCause::BusyCaller),
        ),
        (
            [Play::Start(1, &[])].as_slice(),
            at(0, EventCause::BadCaller),
        ),
        ([Play::Start(0, &[Op::Enq(1), Op::Deq])].as_slice(), None),
        ([Play::Start(0, &[Op::Deq, Op::Deq])].as_slice(), None),
        (
            [Play::Start(0, &[Op::Enq(1), Op::Enq(2), Op::Deq])].as_slice(),
            at(0, EventCause::BadBatch),
        ),
        (
            [Play::Deq(0), Play::Start(0, &[])].as_slice(),
            at(1, EventCause::BadBatch),
        ),
        (
            [Play::Deq(0), Play::Steps(0, 6)].as_slice(),
            at(6, EventCause::IdleCaller),
        ),
    ];
    for (plays, refused) in cases {
        let events = events_of(rt.alloc(), plays)?;
        let outcome = run_schedule(rt.alloc(), &shape, events.as_slice());
        assert_eq!(rt; outcome.err(), refused);
    }
    Ok(())
}

#[test]
fn no_event_leaves_the_empty_history(rt: HostRuntime) -> Result<(), Fail> {
    let shape = Shape::new(1, 1, 1, 10, 0).ok_or("in limits")?;
    let machine = run_schedule(rt.alloc(), &shape, &[]).ok().ok_or("runs")?;
    assert!(rt; machine.history().is_empty());
    let cases = [
        ([Play::Steps(0, 1)].as_slice(), 0, EventCause::IdleCaller),
        (
            [Play::Deq(0), Play::Deq(0)].as_slice(),
            1,
            EventCause::BusyCaller,
        ),
    ];
    for (plays, event, cause) in cases {
        let events = events_of(rt.alloc(), plays)?;
        let outcome = run_schedule(rt.alloc(), &shape, events.as_slice());
        assert_eq!(rt; outcome.err(), Some(ScheduleRefused::At { event, cause }));
    }
    Ok(())
}
