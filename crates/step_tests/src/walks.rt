// The order of the steps of dequeues alone.
use crate::acts::Act;
use crate::steps::{Steps, assert_steps};
use bq_model::Op;
use std::test::Fail;
use step_core::StepKind;

#[test]
fn steps_of_dequeues_alone_come_in_their_order(rt: HostRuntime) -> Result<(), Fail> {
    let rows = [
        // Two values are there for two dequeues.
        Steps {
            acts: &[
                Act::Start(0, &[Op::Enq(5), Op::Enq(6)]),
                Act::Finish(0),
                Act::Start(1, &[Op::Deq, Op::Deq]),
            ],
            kinds: &[
                (StepKind::LoadHead, 1),
                (StepKind::StoreNodeHazard, 1),
                (StepKind::LoadHead, 1),
                (StepKind::LoadLink, 1),
                (StepKind::LoadValue, 1),
                (StepKind::LoadLink, 1),
                (StepKind::LoadValue, 1),
                (StepKind::LoadTail, 1),
                (StepKind::MoveHeadMany, 1),
                (StepKind::MarkRow, 3),
                (StepKind::StoreNodeHazard, 1),
                (StepKind::LoadHazard, 3),
                (StepKind::MarkFree, 2),
            ],
        },
        // Nothing is there.
        Steps {
            acts: &[Act::Start(1, &[Op::Deq, Op::Deq])],
            kinds: &[
                (StepKind::LoadHead, 1),
                (StepKind::StoreNodeHazard, 1),
                (StepKind::LoadHead, 1),
                (StepKind::LoadLink, 1),
                (StepKind::StoreNodeHazard, 1),
            ],
        },
        // One value is there: a stopper is taken, an announcement chosen, its fields are stored from OldHead on, and the
        // stopper is linked.
        Steps {
            acts: &[
                Act::Start(0, &[Op::Enq(5)]),
                Act::Finish(0),
                Act::Start(1, &[Op::Deq, Op::Deq]),
            ],
            kinds: &[
                (StepKind::LoadHead, 1),
                (StepKind::StoreNodeHazard, 1),
                (StepKind::LoadHead, 1),
                (StepKind::LoadLink, 1),
                (StepKind::LoadValue, 1),
                (StepKind::LoadLink, 1),
                (StepKind::LoadMark, 1),
                (StepKind::ClearMark, 1),
                (StepKind::ClearLink, 1),
                (StepKind::LoadHazard, 2),
                (StepKind::StoreAnn, 10),
                (StepKind::Install, 1),
                (StepKind::StoreAnnHazard, 1),
                (StepKind::LoadHead, 1),
                (StepKind::LoadAnn, 4),
                (StepKind::LoadTail, 1),
                (StepKind::StoreNodeHazard, 1),
                (StepKind::LoadTail, 1),
                (StepKind::LoadAnn, 1),
                (StepKind::LoadLink, 1),
                (StepKind::LinkStopper, 1),
                (StepKind::LoadTail, 1),
                (StepKind::StoreNodeHazard, 1),
                (StepKind::LoadTail, 1),
                (StepKind::LoadAnn, 1),
                (StepKind::LoadLink, 1),
                (StepKind::RecordTail, 1),
                (StepKind::LoadTail, 1),
                (StepKind::MoveTailOver, 1),
                (StepKind::MoveHeadAnn, 1),
                (StepKind::LoadAnn, 1),
                (StepKind::LoadLink, 1),
                (StepKind::LoadValue, 1),
                (StepKind::MarkRow, 2),
                (StepKind::StoreNodeHazard, 1),
                (StepKind::StoreAnnHazard, 1),
                (StepKind::LoadHazard, 3),
                (StepKind::MarkFree, 2),
            ],
        },
        // Another value comes before the install: the batch is decided, nothing is linked, and the stopper is given back.
        Steps {
            acts: &[
                Act::Start(0, &[Op::Enq(5)]),
                Act::Finish(0),
                Act::Start(1, &[Op::Deq, Op::Deq]),
                Act::Until(1, StepKind::Install),
                Act::Start(0, &[Op::Enq(6)]),
                Act::Finish(0),
            ],
            kinds: &[
                (StepKind::Install, 1),
                (StepKind::StoreAnnHazard, 1),
                (StepKind::LoadHead, 1),
                (StepKind::LoadAnn, 4),
                (StepKind::LoadTail, 1),
                (StepKind::StoreNodeHazard, 1),
                (StepKind::LoadTail, 1),
                (StepKind::LoadAnn, 1),
                (StepKind::Decide, 1),
                (StepKind::MoveHeadAnn, 1),
                (StepKind::LoadAnn, 1),
                (StepKind::LoadLink, 1),
                (StepKind::LoadValue, 1),
                (StepKind::LoadLink, 1),
                (StepKind::LoadValue, 1),
                (StepKind::MarkRow, 4),
                (StepKind::StoreNodeHazard, 1),
                (StepKind::StoreAnnHazard, 1),
                (StepKind::LoadHazard, 3),
                (StepKind::MarkFree, 3),
            ],
        },
        // That value is taken before the install, and another one comes: the walk begins again, and the same announcement
        // serves, with no hazard word loaded again.
        Steps {
            acts: &[
                Act::Start(0, &[Op::Enq(5)]),
                Act::Finish(0),
                Act::Start(1, &[Op::Deq, Op::Deq]),
                Act::Until(1, StepKind::Install),
                Act::Start(0, &[Op::Deq]),
                Act::Finish(0),
                Act::Start(0, &[Op::Enq(6)]),
                Act::Finish(0),
            ],
            kinds: &[
                (StepKind::Install, 1),
                (StepKind::LoadHead, 1),
                (StepKind::StoreNodeHazard, 1),
                (StepKind::LoadHead, 1),
                (StepKind::LoadLink, 1),
                (StepKind::LoadValue, 1),
                (StepKind::LoadLink, 1),
                (StepKind::StoreAnn, 10),
                (StepKind::Install, 1),
                (StepKind::StoreAnnHazard, 1),
                (StepKind::LoadHead, 1),
                (StepKind::LoadAnn, 4),
                (StepKind::LoadTail, 1),
                (StepKind::StoreNodeHazard, 1),
                (StepKind::LoadTail, 1),
                (StepKind::LoadAnn, 1),
                (StepKind::LoadLink, 1),
                (StepKind::LinkStopper, 1),
                (StepKind::LoadTail, 1),
                (StepKind::StoreNodeHazard, 1),
                (StepKind::LoadTail, 1),
                (StepKind::LoadAnn, 1),
                (StepKind::LoadLink, 1),
                (StepKind::RecordTail, 1),
                (StepKind::LoadTail, 1),
                (StepKind::MoveTailOver, 1),
                (StepKind::MoveHeadAnn, 1),
                (StepKind::LoadAnn, 1),
                (StepKind::LoadLink, 1),
                (StepKind::LoadValue, 1),
                (StepKind::MarkRow, 2),
                (StepKind::StoreNodeHazard, 1),
                (StepKind::StoreAnnHazard, 1),
                (StepKind::LoadHazard, 3),
                (StepKind::MarkFree, 2),
            ],
        },
    ];
    for row in &rows {
        assert_steps(&rt, rt.alloc(), row)?;
    }
    Ok(())
}
