// Announcements that helpers name and hold, and that their owners use again.
use crate::acts::{Act, answers_of, do_it};
use crate::batches::{Batches, assert_batches};
use crate::steps::{Steps, assert_steps};
use bq_model::{Answer, Op, Shape};
use std::test::Fail;
use step_core::{Machine, StepKind};

/// Three batches of an owner.
const FIRST: &[Op] = &[Op::Enq(5), Op::Enq(6), Op::Deq];

const SECOND: &[Op] = &[Op::Enq(7), Op::Enq(8)];

const THIRD: &[Op] = &[Op::Enq(1), Op::Deq, Op::Deq];

#[test]
fn announcement_that_a_helper_holds_is_not_used(rt: HostRuntime) -> Result<(), Fail> {
    let rows = [
        // A lone caller announces all its batches by its one announcement.
        Batches {
            callers: 1,
            batch: 4,
            acts: &[
                Act::Start(0, FIRST),
                Act::Finish(0),
                Act::Start(0, SECOND),
                Act::Finish(0),
                Act::Start(0, THIRD),
                Act::Finish(0),
            ],
            groups: &[(0, 0, FIRST), (0, 1, SECOND), (0, 2, THIRD)],
            caller: 0,
            answers: &[Answer::Done, Answer::Got(6), Answer::Got(7)],
            queue: &[8, 1],
        },
        // The helper holds the first announcement of two, and stops. The owner uses the other one twice. What the helper does
        // late changes nothing.
        Batches {
            callers: 2,
            batch: 4,
            acts: &[
                Act::Start(0, FIRST),
                Act::Until(0, StepKind::LinkChain),
                Act::Start(1, &[Op::Deq]),
                Act::Until(1, StepKind::LinkChain),
                Act::Finish(0),
                Act::Start(0, SECOND),
                Act::Finish(0),
                Act::Start(0, THIRD),
                Act::Finish(0),
                Act::Finish(1),
            ],
            groups: &[
                (0, 0, FIRST),
                (0, 1, SECOND),
                (0, 2, THIRD),
                (1, 0, &[Op::Deq]),
            ],
            caller: 1,
            answers: &[Answer::Got(8)],
            queue: &[1],
        },
        // Two helpers hold two announcements of three, and the owner uses the third one.
        Batches {
            callers: 3,
            batch: 4,
            acts: &[
                Act::Start(0, FIRST),
                Act::Until(0, StepKind::LinkChain),
                Act::Start(1, &[Op::Deq]),
                Act::Until(1, StepKind::LinkChain),
                Act::Finish(0),
                Act::Start(0, SECOND),
                Act::Until(0, StepKind::LinkChain),
                Act::Start(2, &[Op::Deq]),
                Act::Until(2, StepKind::LinkChain),
                Act::Finish(0),
                Act::Start(0, &[Op::Enq(3), Op::Deq]),
                Act::Finish(0),
                Act::Start(0, &[Op::Enq(4), Op::Deq]),
                Act::Finish(0),
                Act::Finish(1),
                Act::Finish(2),
            ],
            groups: &[
                (0, 0, FIRST),
                (0, 1, SECOND),
                (0, 2, &[Op::Enq(3), Op::Deq]),
                (0, 3, &[Op::Enq(4), Op::Deq]),
                (1, 0, &[Op::Deq]),
                (2, 0, &[Op::Deq]),
            ],
            caller: 2,
            answers: &[Answer::Got(3)],
            queue: &[4],
        },
    ];
    for row in &rows {
        assert_batches(&rt, rt.alloc(), row)?;
    }
    Ok(())
}

#[test]
fn help_begins_only_where_the_head_is_as_before(rt: HostRuntime) -> Result<(), Fail> {
    let rows = [
        // The batch is finished before the second load of the head. The helper reads nothing, and clears its hazard word at
        // the end.
        Steps {
            acts: &[
                Act::Start(0, FIRST),
                Act::Until(0, StepKind::LinkChain),
                Act::Start(1, &[Op::Deq]),
                Act::Until(1, StepKind::StoreAnnHazard),
                Act::Until(1, StepKind::LoadHead),
                Act::Finish(0),
            ],
            kinds: &[
                (StepKind::LoadHead, 2),
                (StepKind::StoreNodeHazard, 1),
                (StepKind::LoadHead, 1),
                (StepKind::LoadLink, 1),
                (StepKind::LoadTail, 1),
                (StepKind::LoadValue, 1),
                (StepKind::MoveHead, 1),
                (StepKind::MarkRow, 2),
                (StepKind::StoreNodeHazard, 1),
                (StepKind::StoreAnnHazard, 1),
                (StepKind::LoadHazard, 3),
                (StepKind::MarkFree, 1),
            ],
        },
        // The second load finds the next announcement of the owner there, since the first one is named. The helper names that,
        // and helps.
        Steps {
            acts: &[
                Act::Start(0, FIRST),
                Act::Until(0, StepKind::LinkChain),
                Act::Start(1, &[Op::Deq]),
                Act::Until(1, StepKind::StoreAnnHazard),
                Act::Until(1, StepKind::LoadHead),
                Act::Finish(0),
                Act::Start(0, SECOND),
                Act::Until(0, StepKind::LinkChain),
            ],
            kinds: &[
                (StepKind::LoadHead, 2),
                (StepKind::StoreAnnHazard, 1),
                (StepKind::LoadHead, 1),
                (StepKind::LoadAnn, 4),
                (StepKind::LoadTail, 1),
                (StepKind::StoreNodeHazard, 1),
                (StepKind::LoadTail, 1),
                (StepKind::LoadAnn, 1),
                (StepKind::LoadLink, 1),
                (StepKind::LinkChain, 1),
                (StepKind::LoadTail, 1),
                (StepKind::StoreNodeHazard, 1),
                (StepKind::LoadTail, 1),
                (StepKind::LoadAnn, 1),
                (StepKind::LoadLink, 1),
                (StepKind::RecordTail, 1),
                (StepKind::LoadTail, 1),
                (StepKind::MoveTailOver, 1),
                (StepKind::MoveHeadAnn, 1),
                (StepKind::LoadHead, 1),
                (StepKind::StoreNodeHazard, 1),
                (StepKind::LoadHead, 1),
                (StepKind::LoadLink, 1),
                (StepKind::LoadTail, 1),
                (StepKind::LoadValue, 1),
                (StepKind::MoveHead, 1),
                (StepKind::MarkRow, 2),
                (StepKind::StoreNodeHazard, 1),
                (StepKind::StoreAnnHazard, 1),
                (StepKind::LoadHazard, 3),
                (StepKind::MarkFree, 1),
            ],
        },
        // The helper stops before it names the announcement. This is used again for another batch at the same count, so that the
        // head has the same word, and the helper helps that batch.
        Steps {
            acts: &[
                Act::Start(0, SECOND),
                Act::Until(0, StepKind::LinkChain),
                Act::Start(1, &[Op::Deq]),
                Act::Until(1, StepKind::StoreAnnHazard),
                Act::Finish(0),
                Act::Start(0, &[Op::Enq(3), Op::Enq(4)]),
                Act::Until(0, StepKind::LinkChain),
            ],
            kinds: &[
                (StepKind::StoreAnnHazard, 1),
                (StepKind::LoadHead, 1),
                (StepKind::LoadAnn, 4),
                (StepKind::LoadTail, 1),
                (StepKind::StoreNodeHazard, 1),
                (StepKind::LoadTail, 1),
                (StepKind::LoadAnn, 1),
                (StepKind::LoadLink, 1),
                (StepKind::LinkChain, 1),
                (StepKind::LoadTail, 1),
                (StepKind::StoreNodeHazard, 1),
                (StepKind::LoadTail, 1),
                (StepKind::LoadAnn, 1),
                (StepKind::LoadLink, 1),
                (StepKind::RecordTail, 1),
                (StepKind::LoadTail, 1),
                (StepKind::MoveTailOver, 1),
                (StepKind::MoveHeadAnn, 1),
                (StepKind::LoadHead, 1),
                (StepKind::StoreNodeHazard, 1),
                (StepKind::LoadHead, 1),
                (StepKind::LoadLink, 1),
                (StepKind::LoadTail, 1),
                (StepKind::LoadValue, 1),
                (StepKind::MoveHead, 1),
                (StepKind::MarkRow, 2),
                (StepKind::StoreNodeHazard, 1),
                (StepKind::StoreAnnHazard, 1),
                (StepKind::LoadHazard, 3),
                (StepKind::MarkFree, 1),
            ],
        },
    ];
    for row in &rows {
        assert_steps(&rt, rt.alloc(), row)?;
    }
    Ok(())
}

#[test]
fn one_announcement_serves_a_hundred_batches(rt: HostRuntime) -> Result<(), Fail> {
    let shape = Shape::new(1, 2, 100, 200, 0).ok_or("in limits")?;
    let mut machine = Machine::new(rt.alloc(), &shape)?;
    for value in 0..100 {
        do_it(&mut machine, Act::Start(0, &[Op::Enq(value), Op::Deq]))?;
        do_it(&mut machine, Act::Finish(0))?;
        let answers = answers_of(rt.alloc(), &machine, 0)?;
        assert_eq!(rt;
            answers.as_slice(),
            [Answer::Done, Answer::Got(value)].as_slice()
        );
    }
    assert_eq!(rt; machine.history().len(), 100);
    Ok(())
}
