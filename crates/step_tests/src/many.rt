// Batches of dequeues alone by hand, with what each must answer and leave.
use crate::acts::{Act, answers_of, do_it};
use crate::batches::{Batches, assert_batches};
use bq_model::{Answer, Op, Shape};
use std::test::Fail;
use step_core::{Machine, StepKind};

/// Two dequeues, and three.
const TWO: &[Op] = &[Op::Deq, Op::Deq];

const THREE: &[Op] = &[Op::Deq, Op::Deq, Op::Deq];

#[test]
fn dequeues_alone_take_effect_in_one_step(rt: HostRuntime) -> Result<(), Fail> {
    let rows = [
        // The walk found its values, and another caller appends before the head moves over both at once.
        Batches {
            callers: 2,
            batch: 4,
            acts: &[
                Act::Start(0, &[Op::Enq(1), Op::Enq(2), Op::Enq(3)]),
                Act::Finish(0),
                Act::Start(0, TWO),
                Act::Until(0, StepKind::MoveHeadMany),
                Act::Start(1, &[Op::Enq(9)]),
                Act::Finish(1),
                Act::Finish(0),
            ],
            groups: &[
                (0, 0, &[Op::Enq(1), Op::Enq(2), Op::Enq(3)]),
                (1, 0, &[Op::Enq(9)]),
                (0, 1, TWO),
            ],
            caller: 0,
            answers: &[Answer::Got(1), Answer::Got(2)],
            queue: &[3, 9],
        },
        // Another caller takes the first value before that, so the walk begins again.
        Batches {
            callers: 2,
            batch: 4,
            acts: &[
                Act::Start(0, &[Op::Enq(1), Op::Enq(2), Op::Enq(3)]),
                Act::Finish(0),
                Act::Start(0, TWO),
                Act::Until(0, StepKind::MoveHeadMany),
                Act::Start(1, &[Op::Deq]),
                Act::Finish(1),
                Act::Finish(0),
            ],
            groups: &[
                (0, 0, &[Op::Enq(1), Op::Enq(2), Op::Enq(3)]),
                (1, 0, &[Op::Deq]),
                (0, 1, TWO),
            ],
            caller: 0,
            answers: &[Answer::Got(2), Answer::Got(3)],
            queue: &[],
        },
        // The queue is empty at the load of the dummy's link. Another caller is about to append.
        Batches {
            callers: 2,
            batch: 4,
            acts: &[
                Act::Start(1, &[Op::Enq(7)]),
                Act::Until(1, StepKind::LinkSingle),
                Act::Start(0, TWO),
                Act::Finish(0),
                Act::Finish(1),
            ],
            groups: &[(0, 0, TWO), (1, 0, &[Op::Enq(7)])],
            caller: 0,
            answers: &[Answer::Empty, Answer::Empty],
            queue: &[7],
        },
        // The tail lags behind the last value, and the walk moves it before it begins again.
        Batches {
            callers: 2,
            batch: 4,
            acts: &[
                Act::Start(0, &[Op::Enq(1)]),
                Act::Finish(0),
                Act::Start(1, &[Op::Enq(2)]),
                Act::Until(1, StepKind::MoveTail),
                Act::Start(0, TWO),
                Act::Finish(0),
                Act::Finish(1),
            ],
            groups: &[(0, 0, &[Op::Enq(1)]), (1, 0, &[Op::Enq(2)]), (0, 1, TWO)],
            caller: 0,
            answers: &[Answer::Got(1), Answer::Got(2)],
            queue: &[],
        },
    ];
    for row in &rows {
        assert_batches(&rt, rt.alloc(), row)?;
    }
    Ok(())
}

#[test]
fn dequeues_alone_are_announced_where_they_find_too_few(rt: HostRuntime) -> Result<(), Fail> {
    let rows = [
        // The value 9 comes between the walk and the install, so that nothing is linked.
        Batches {
            callers: 2,
            batch: 4,
            acts: &[
                Act::Start(0, &[Op::Enq(1)]),
                Act::Finish(0),
                Act::Start(0, &[Op::Enq(2)]),
                Act::Finish(0),
                Act::Start(0, THREE),
                Act::Until(0, StepKind::Install),
                Act::Start(1, &[Op::Enq(9)]),
                Act::Finish(1),
                Act::Finish(0),
            ],
            groups: &[
                (0, 0, &[Op::Enq(1)]),
                (0, 1, &[Op::Enq(2)]),
                (1, 0, &[Op::Enq(9)]),
                (0, 2, THREE),
            ],
            caller: 0,
            answers: &[Answer::Got(1), Answer::Got(2), Answer::Got(9)],
            queue: &[],
        },
        // The stopper becomes the dummy, and the value 9 comes behind it.
        Batches {
            callers: 2,
            batch: 4,
            acts: &[
                Act::Start(0, &[Op::Enq(1)]),
                Act::Finish(0),
                Act::Start(0, &[Op::Enq(2)]),
                Act::Finish(0),
                Act::Start(0, THREE),
                Act::Finish(0),
                Act::Start(1, &[Op::Enq(9)]),
                Act::Finish(1),
            ],
            groups: &[
                (0, 0, &[Op::Enq(1)]),
                (0, 1, &[Op::Enq(2)]),
                (0, 2, THREE),
                (1, 0, &[Op::Enq(9)]),
            ],
            caller: 0,
            answers: &[Answer::Got(1), Answer::Got(2), Answer::Empty],
            queue: &[9],
        },
        // A lone caller announces both batches by its one announcement.
        Batches {
            callers: 1,
            batch: 4,
            acts: &[
                Act::Start(0, &[Op::Enq(1)]),
                Act::Finish(0),
                Act::Start(0, THREE),
                Act::Finish(0),
                Act::Start(0, &[Op::Enq(2)]),
                Act::Finish(0),
                Act::Start(0, TWO),
                Act::Finish(0),
            ],
            groups: &[
                (0, 0, &[Op::Enq(1)]),
                (0, 1, THREE),
                (0, 2, &[Op::Enq(2)]),
                (0, 3, TWO),
            ],
            caller: 0,
            answers: &[Answer::Got(2), Answer::Empty],
            queue: &[],
        },
        // The first value is taken before the install, and another one comes. The second install is of the same announcement.
        Batches {
            callers: 2,
            batch: 4,
            acts: &[
                Act::Start(0, &[Op::Enq(1)]),
                Act::Finish(0),
                Act::Start(0, TWO),
                Act::Until(0, StepKind::Install),
                Act::Start(1, &[Op::Deq]),
                Act::Finish(1),
                Act::Start(1, &[Op::Enq(2)]),
                Act::Finish(1),
                Act::Finish(0),
            ],
            groups: &[
                (0, 0, &[Op::Enq(1)]),
                (1, 0, &[Op::Deq]),
                (1, 1, &[Op::Enq(2)]),
                (0, 1, TWO),
            ],
            caller: 0,
            answers: &[Answer::Got(2), Answer::Empty],
            queue: &[],
        },
    ];
    for row in &rows {
        assert_batches(&rt, rt.alloc(), row)?;
    }
    Ok(())
}

#[test]
fn stoppers_serve_a_hundred_batches(rt: HostRuntime) -> Result<(), Fail> {
    // With batches of two a single caller has 2 + 1 * (2 + 1 + 1) stoppers, which is 6. Each batch links one of them.
    let shape = Shape::new(1, 2, 8, 400, 0).ok_or("in limits")?;
    let mut machine = Machine::new(rt.alloc(), &shape)?;
    for value in 0..100 {
        do_it(&mut machine, Act::Start(0, &[Op::Enq(value)]))?;
        do_it(&mut machine, Act::Finish(0))?;
        do_it(&mut machine, Act::Start(0, TWO))?;
        do_it(&mut machine, Act::Finish(0))?;
        let answers = answers_of(rt.alloc(), &machine, 0)?;
        assert_eq!(rt;
            answers.as_slice(),
            [Answer::Got(value), Answer::Empty].as_slice()
        );
    }
    assert_eq!(rt; machine.history().len(), 200);
    Ok(())
}

#[test]
fn helpers_finish_dequeues_alone(rt: HostRuntime) -> Result<(), Fail> {
    let rows = [
        // The owner stops right after its install, and a dequeue links its stopper.
        Batches {
            callers: 2,
            batch: 4,
            acts: &[
                Act::Start(0, &[Op::Enq(1), Op::Enq(2)]),
                Act::Finish(0),
                Act::Start(0, THREE),
                Act::Until(0, StepKind::Install),
                Act::Until(0, StepKind::StoreAnnHazard),
                Act::Start(1, &[Op::Deq]),
                Act::Finish(1),
                Act::Finish(0),
            ],
            groups: &[
                (0, 0, &[Op::Enq(1), Op::Enq(2)]),
                (0, 1, THREE),
                (1, 0, &[Op::Deq]),
            ],
            caller: 0,
            answers: &[Answer::Got(1), Answer::Got(2), Answer::Empty],
            queue: &[],
        },
        // It stops before it links the stopper, and other dequeues alone link it.
        Batches {
            callers: 2,
            batch: 4,
            acts: &[
                Act::Start(0, &[Op::Enq(1), Op::Enq(2)]),
                Act::Finish(0),
                Act::Start(0, THREE),
                Act::Until(0, StepKind::LinkStopper),
                Act::Start(1, TWO),
                Act::Finish(1),
                Act::Finish(0),
            ],
            groups: &[
                (0, 0, &[Op::Enq(1), Op::Enq(2)]),
                (0, 1, THREE),
                (1, 0, TWO),
            ],
            caller: 1,
            answers: &[Answer::Empty, Answer::Empty],
            queue: &[],
        },
        // It stops before it decides, and a dequeue decides for it.
        Batches {
            callers: 2,
            batch: 4,
            acts: &[
                Act::Start(0, &[Op::Enq(1), Op::Enq(2)]),
                Act::Finish(0),
                Act::Start(0, THREE),
                Act::Until(0, StepKind::Install),
                Act::Start(1, &[Op::Enq(9)]),
                Act::Finish(1),
                Act::Until(0, StepKind::Decide),
                Act::Start(1, &[Op::Deq]),
                Act::Finish(1),
                Act::Finish(0),
            ],
            groups: &[
                (0, 0, &[Op::Enq(1), Op::Enq(2)]),
                (1, 0, &[Op::Enq(9)]),
                (0, 1, THREE),
                (1, 1, &[Op::Deq]),
            ],
            caller: 0,
            answers: &[Answer::Got(1), Answer::Got(2), Answer::Got(9)],
            queue: &[],
        },
        // A helper is about to link the stopper, as a value comes and the owner decides first.
        Batches {
            callers: 3,
            batch: 4,
            acts: &[
                Act::Start(0, &[Op::Enq(1), Op::Enq(2)]),
                Act::Finish(0),
                Act::Start(0, THREE),
                Act::Until(0, StepKind::Install),
                Act::Until(0, StepKind::StoreAnnHazard),
                Act::Start(1, &[Op::Deq]),
                Act::Until(1, StepKind::LinkStopper),
                Act::Start(2, &[Op::Enq(9)]),
                Act::Finish(2),
                Act::Finish(0),
                Act::Finish(1),
            ],
            groups: &[
                (0, 0, &[Op::Enq(1), Op::Enq(2)]),
                (2, 0, &[Op::Enq(9)]),
                (0, 1, THREE),
                (1, 0, &[Op::Deq]),
            ],
            caller: 0,
            answers: &[Answer::Got(1), Answer::Got(2), Answer::Got(9)],
            queue: &[],
        },
    ];
    for row in &rows {
        assert_batches(&rt, rt.alloc(), row)?;
    }
    Ok(())
}
