// Batches by hand, with what each must answer and leave.
use crate::acts::{Act, answers_of, do_it, drained};
use bq_model::{Answer, Op, Shape};
use std::alloc::Global;
use std::process::Abort;
use std::test::Fail;
use step_core::{Machine, StepKind};

/// Acts, and what they leave: the groups, the answers of a caller's last command, and the values that are queued, which the
/// same caller dequeues.
#[derive(Clone, Copy)]
pub struct Batches<'a> {
    pub callers: u32,
    pub batch: u32,
    pub acts: &'a [Act<'a>],
    pub groups: &'a [(u32, u64, &'a [Op])],
    pub caller: u32,
    pub answers: &'a [Answer],
    pub queue: &'a [u64],
}

pub fn assert_batches(rt: &impl Abort, alloc: Global, row: &Batches) -> Result<(), Fail> {
    let shape = Shape::new(row.callers, row.batch, 8, 100, 0).ok_or("in limits")?;
    let mut machine = Machine::new(alloc, &shape)?;
    for next in row.acts {
        do_it(&mut machine, *next)?;
    }
    assert_eq!(rt; machine.history().len(), row.groups.len());
    for (group, wanted) in machine.history().iter().zip(row.groups) {
        assert_eq!(rt; (group.caller, group.batch), (wanted.0, wanted.1));
        assert_eq!(rt; group.ops.as_slice(), wanted.2);
    }
    let answers = answers_of(alloc, &machine, row.caller)?;
    assert_eq!(rt; answers.as_slice(), row.answers);
    let queue = drained(alloc, &mut machine, row.caller)?;
    assert_eq!(rt; queue.as_slice(), row.queue);
    Ok(())
}

#[test]
fn batches_by_hand_answer_and_leave_what_they_must(rt: HostRuntime) -> Result<(), Fail> {
    let rows = [
        // Two dequeues succeed on one value, the second on a value of the batch itself.
        Batches {
            callers: 1,
            batch: 5,
            acts: &[
                Act::Start(0, &[Op::Enq(7)]),
                Act::Finish(0),
                Act::Start(0, &[Op::Deq, Op::Enq(8), Op::Deq, Op::Deq, Op::Enq(9)]),
                Act::Finish(0),
            ],
            groups: &[
                (0, 0, &[Op::Enq(7)]),
                (0, 1, &[Op::Deq, Op::Enq(8), Op::Deq, Op::Deq, Op::Enq(9)]),
            ],
            caller: 0,
            answers: &[
                Answer::Got(7),
                Answer::Done,
                Answer::Got(8),
                Answer::Empty,
                Answer::Done,
            ],
            queue: &[9],
        },
        // The same batch on an empty queue.
        Batches {
            callers: 1,
            batch: 5,
            acts: &[
                Act::Start(0, &[Op::Deq, Op::Enq(8), Op::Deq, Op::Deq, Op::Enq(9)]),
                Act::Finish(0),
            ],
            groups: &[(0, 0, &[Op::Deq, Op::Enq(8), Op::Deq, Op::Deq, Op::Enq(9)])],
            caller: 0,
            answers: &[
                Answer::Empty,
                Answer::Done,
                Answer::Got(8),
                Answer::Empty,
                Answer::Done,
            ],
            queue: &[9],
        },
        // A longer queue than the batch: the new dummy lies before the old tail.
        Batches {
            callers: 2,
            batch: 5,
            acts: &[
                Act::Start(
                    0,
                    &[Op::Enq(1), Op::Enq(2), Op::Enq(3), Op::Enq(4), Op::Enq(5)],
                ),
                Act::Finish(0),
                Act::Start(0, &[Op::Enq(6), Op::Deq]),
                Act::Finish(0),
            ],
            groups: &[
                (
                    0,
                    0,
                    &[Op::Enq(1), Op::Enq(2), Op::Enq(3), Op::Enq(4), Op::Enq(5)],
                ),
                (0, 1, &[Op::Enq(6), Op::Deq]),
            ],
            caller: 0,
            answers: &[Answer::Done, Answer::Got(1)],
            queue: &[2, 3, 4, 5, 6],
        },
        // No dequeue: the head gets its old word back.
        Batches {
            callers: 1,
            batch: 5,
            acts: &[Act::Start(0, &[Op::Enq(1), Op::Enq(2)]), Act::Finish(0)],
            groups: &[(0, 0, &[Op::Enq(1), Op::Enq(2)])],
            caller: 0,
            answers: &[Answer::Done, Answer::Done],
            queue: &[1, 2],
        },
        // A dequeue finishes the batch of a caller that stopped before its link.
        Batches {
            callers: 2,
            batch: 4,
            acts: &[
                Act::Start(0, &[Op::Enq(5), Op::Enq(6), Op::Deq]),
                Act::Until(0, StepKind::LinkChain),
                Act::Start(1, &[Op::Deq]),
                Act::Finish(1),
            ],
            groups: &[
                (0, 0, &[Op::Enq(5), Op::Enq(6), Op::Deq]),
                (1, 0, &[Op::Deq]),
            ],
            caller: 1,
            answers: &[Answer::Got(6)],
            queue: &[],
        },
        // The helper's own exchange comes late and changes nothing.
        Batches {
            callers: 3,
            batch: 4,
            acts: &[
                Act::Start(0, &[Op::Enq(5), Op::Enq(6), Op::Deq]),
                Act::Until(0, StepKind::LinkChain),
                Act::Start(1, &[Op::Deq]),
                Act::Until(1, StepKind::LinkChain),
                Act::Finish(0),
                Act::Start(0, &[Op::Enq(7), Op::Enq(8)]),
                Act::Finish(0),
                Act::Start(0, &[Op::Enq(1), Op::Deq, Op::Deq]),
                Act::Finish(0),
                Act::Finish(1),
            ],
            groups: &[
                (0, 0, &[Op::Enq(5), Op::Enq(6), Op::Deq]),
                (0, 1, &[Op::Enq(7), Op::Enq(8)]),
                (0, 2, &[Op::Enq(1), Op::Deq, Op::Deq]),
                (1, 0, &[Op::Deq]),
            ],
            caller: 1,
            answers: &[Answer::Got(8)],
            queue: &[1],
        },
        // The owner stops right after its install, and another caller's enqueue does the rest. The owner finds its answers.
        Batches {
            callers: 2,
            batch: 5,
            acts: &[
                Act::Start(0, &[Op::Enq(5), Op::Enq(6), Op::Deq]),
                Act::Until(0, StepKind::Install),
                Act::Until(0, StepKind::StoreAnnHazard),
                Act::Start(1, &[Op::Enq(2), Op::Deq]),
                Act::Finish(1),
                Act::Finish(0),
            ],
            groups: &[
                (0, 0, &[Op::Enq(5), Op::Enq(6), Op::Deq]),
                (1, 0, &[Op::Enq(2), Op::Deq]),
            ],
            caller: 0,
            answers: &[Answer::Done, Answer::Done, Answer::Got(5)],
            queue: &[2],
        },
    ];
    for row in &rows {
        assert_batches(&rt, rt.alloc(), row)?;
    }
    Ok(())
}

#[test]
fn largest_batch_on_a_lane_at_the_limits(rt: HostRuntime) -> Result<(), Fail> {
    let first = (1 << 44) - 1 - 17 * (1 << 38);
    let shape = Shape::new(17, 256, 256, 1 << 38, first).ok_or("in limits")?;
    let mut machine = Machine::new(rt.alloc(), &shape)?;
    let mut ops = Vec::new(rt.alloc());
    for value in 0..128 {
        ops.push(Op::Enq(value))?;
    }
    for _ in 0..128 {
        ops.push(Op::Deq)?;
    }
    do_it(&mut machine, Act::Start(16, ops.as_slice()))?;
    do_it(&mut machine, Act::Finish(16))?;
    let answers = answers_of(rt.alloc(), &machine, 16)?;
    assert_eq!(rt; answers.len(), 256);
    assert_eq!(rt; answers.get(127).copied(), Some(Answer::Done));
    assert_eq!(rt; answers.get(128).copied(), Some(Answer::Got(0)));
    assert_eq!(rt; answers.get(255).copied(), Some(Answer::Got(127)));
    Ok(())
}
