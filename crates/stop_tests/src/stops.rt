// A caller that stops before a step of any kind, and two others that make a thousand operations each.
use crate::acts::{Act, answers_of, do_it, go_until, is_at, is_done};
use crate::other::Other;
use bq_model::{Answer, Op, Shape};
use std::alloc::Global;
use std::collections::VecDeque;
use std::process::Abort;
use std::test::Fail;
use step_core::{Machine, StepKind};

/// A batch with enqueues and dequeues.
const BATCH: &[Op] = &[Op::Enq(5), Op::Enq(6), Op::Deq];

const THREE: &[Op] = &[Op::Deq, Op::Deq, Op::Deq];

/// The answer of a queue to an operation.
fn answer_of(queue: &mut VecDeque<u64>, op: Op) -> Result<Answer, Fail> {
    Ok(match op {
        Op::Enq(value) => {
            queue.push_back(value)?;
            Answer::Done
        }
        Op::Deq => match queue.pop_front() {
            Some(value) => Answer::Got(value),
            None => Answer::Empty,
        },
        // No command here is one.
        Op::Shut => Answer::Done,
    })
}

/// The answers of a queue to the caller's operations, where it makes those of the history one after another.
fn replayed(alloc: Global, machine: &Machine, caller: u32) -> Result<Vec<Answer>, Fail> {
    let mut queue = VecDeque::new(alloc);
    let mut answers = Vec::new(alloc);
    for group in machine.history() {
        for op in group.ops.as_slice() {
            let answer = answer_of(&mut queue, *op)?;
            if group.caller == caller {
                answers.push(answer)?;
            }
        }
    }
    Ok(answers)
}

/// Caller 0 stops before a step of the kind. Callers 1 and 2 make their operations, in turns of one step. Then it goes on, and
/// so does caller 3, which may have stopped in what goes before.
fn assert_others_go_on(
    rt: &impl Abort,
    alloc: Global,
    acts: &[Act],
    kind: StepKind,
) -> Result<(), Fail> {
    let shape = Shape::new(4, 4, 64, 2_000, 0).ok_or("in limits")?;
    let mut machine = Machine::new(alloc, &shape)?;
    for next in acts {
        do_it(&mut machine, *next)?;
    }
    go_until(&mut machine, 0, Some(kind));
    assert!(rt; is_at(&machine, 0, Some(kind)), "{kind:?}");
    let mut first = Other::new(alloc, 1);
    let mut second = Other::new(alloc, 2);
    for _ in 0..200_000 {
        if first.has_ended(&machine) && second.has_ended(&machine) {
            break;
        }
        first.go_on(rt, alloc, &mut machine)?;
        second.go_on(rt, alloc, &mut machine)?;
    }
    assert!(rt; is_at(&machine, 0, Some(kind)), "{kind:?}");
    for other in [&first, &second] {
        assert_eq!(rt; other.answers.len(), 1_000, "{kind:?}");
        assert!(rt; other.longest < 200, "{kind:?}: {}", other.longest);
        let answers = replayed(alloc, &machine, other.caller)?;
        assert_eq!(rt; other.answers.as_slice(), answers.as_slice(), "{kind:?}");
    }
    for caller in [0, 3] {
        go_until(&mut machine, caller, None);
        assert!(rt; is_at(&machine, caller, None), "{kind:?}");
        let last = answers_of(alloc, &machine, caller)?;
        let answers = replayed(alloc, &machine, caller)?;
        assert!(rt; answers.as_slice().ends_with(last.as_slice()), "{kind:?}");
    }
    assert!(rt; is_done(&machine, 0), "{kind:?}");
    Ok(())
}

#[test]
fn caller_that_stops_at_any_kind_leaves_the_others_going(rt: HostRuntime) -> Result<(), Fail> {
    let rows: [(&[Act], &[StepKind]); 7] = [
        (
            &[Act::Start(0, &[Op::Enq(1)])],
            &[
                StepKind::LoadMark,
                StepKind::ClearMark,
                StepKind::ClearLink,
                StepKind::StoreValue,
                StepKind::LoadTail,
                StepKind::StoreNodeHazard,
                StepKind::LinkSingle,
                StepKind::MoveTail,
            ],
        ),
        (
            &[Act::Make(3, &[Op::Enq(8)]), Act::Start(0, &[Op::Deq])],
            &[
                StepKind::LoadHead,
                StepKind::LoadLink,
                StepKind::LoadValue,
                StepKind::MoveHead,
                StepKind::MarkRow,
                StepKind::LoadHazard,
                StepKind::MarkFree,
            ],
        ),
        (
            &[Act::Start(0, BATCH)],
            &[
                StepKind::StoreChain,
                StepKind::LoadHazard,
                StepKind::StoreAnn,
                StepKind::Install,
                StepKind::LinkChain,
                StepKind::MoveTailOver,
                StepKind::MarkRow,
            ],
        ),
        // The dequeues find enough.
        (
            &[
                Act::Make(3, &[Op::Enq(7), Op::Enq(8), Op::Enq(9)]),
                Act::Start(0, THREE),
            ],
            &[StepKind::MoveHeadMany],
        ),
        // They find too few, and link a stopper.
        (
            &[
                Act::Make(3, &[Op::Enq(7), Op::Enq(8)]),
                Act::Start(0, THREE),
            ],
            &[StepKind::LinkStopper, StepKind::MoveHeadAnn],
        ),
        // They find too few, and another value comes before they are announced.
        (
            &[
                Act::Make(3, &[Op::Enq(7), Op::Enq(8)]),
                Act::Start(0, THREE),
                Act::Until(0, StepKind::Install),
                Act::Make(3, &[Op::Enq(9)]),
            ],
            &[StepKind::Decide],
        ),
        // Another caller's batch is announced, its owner stops, and caller 0 helps it.
        (
            &[
                Act::Start(3, BATCH),
                Act::Until(3, StepKind::Install),
                Act::Until(3, StepKind::StoreAnnHazard),
                Act::Start(0, &[Op::Deq]),
            ],
            &[
                StepKind::StoreAnnHazard,
                StepKind::LoadAnn,
                StepKind::RecordTail,
                StepKind::MoveHeadAnn,
            ],
        ),
    ];
    let mut reached = Vec::new(rt.alloc());
    for (acts, kinds) in rows {
        for kind in kinds {
            assert_others_go_on(&rt, rt.alloc(), acts, *kind)?;
            if !reached.as_slice().contains(kind) {
                reached.push(*kind)?;
            }
        }
    }
    // Each of the kinds that there are.
    assert_eq!(rt; reached.len(), 27);
    Ok(())
}
