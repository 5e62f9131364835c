// The order of the steps of batches and helps.
use crate::acts::{Act, do_it};
use bq_model::{Op, OutOfMemory, Shape};
use std::alloc::Global;
use std::process::Abort;
use std::test::Fail;
use step_core::{Machine, StepKind};

/// The kinds of the steps that the caller makes to the end of its command.
fn kinds_to_the_end(
    alloc: Global,
    machine: &mut Machine,
    caller: u32,
) -> Result<Vec<StepKind>, OutOfMemory> {
    let mut kinds = Vec::new(alloc);
    for _ in 0..120 {
        if caller < machine.callers() {
            if let Some(_) = machine.next_kind(caller) {
                kinds.push(machine.step(caller))?;
            }
        }
    }
    Ok(kinds)
}

/// What goes before, and the steps of caller 1 from there to the end of its command: so many of each kind.
#[derive(Clone, Copy)]
pub struct Steps<'a> {
    pub acts: &'a [Act<'a>],
    pub kinds: &'a [(StepKind, u32)],
}

/// The kinds, each so many times.
fn each(alloc: Global, runs: &[(StepKind, u32)]) -> Result<Vec<StepKind>, OutOfMemory> {
    let mut kinds = Vec::new(alloc);
    for run in runs {
        for _ in 0..run.1 {
            kinds.push(run.0)?;
        }
    }
    Ok(kinds)
}

pub fn assert_steps(rt: &impl Abort, alloc: Global, row: &Steps) -> Result<(), Fail> {
    let shape = Shape::new(3, 4, 8, 100, 0).ok_or("in limits")?;
    let mut machine = Machine::new(alloc, &shape)?;
    for next in row.acts {
        do_it(&mut machine, *next)?;
    }
    let kinds = kinds_to_the_end(alloc, &mut machine, 1)?;
    let wanted = each(alloc, row.kinds)?;
    assert_eq!(rt; kinds.as_slice(), wanted.as_slice());
    Ok(())
}

#[test]
fn steps_of_batches_and_helps_come_in_their_order(rt: HostRuntime) -> Result<(), Fail> {
    let rows = [
        // A whole batch.
        Steps {
            acts: &[Act::Start(1, &[Op::Enq(5), Op::Enq(6), Op::Deq])],
            kinds: &[
                (StepKind::LoadMark, 1),
                (StepKind::ClearMark, 1),
                (StepKind::ClearLink, 1),
                (StepKind::StoreValue, 1),
                (StepKind::LoadMark, 2),
                (StepKind::ClearMark, 1),
                (StepKind::ClearLink, 1),
                (StepKind::StoreValue, 1),
                (StepKind::StoreChain, 1),
                (StepKind::LoadHazard, 2),
                (StepKind::StoreAnn, 9),
                (StepKind::LoadHead, 1),
                (StepKind::StoreAnn, 1),
                (StepKind::Install, 1),
                (StepKind::StoreAnnHazard, 1),
                (StepKind::LoadHead, 1),
                (StepKind::LoadAnn, 4),
                (StepKind::LoadTail, 1),
                (StepKind::StoreNodeHazard, 1),
                (StepKind::LoadTail, 1),
                (StepKind::LoadAnn, 1),
                (StepKind::LoadLink, 1),
                (StepKind::LinkChain, 1),
                (StepKind::LoadTail, 1),
                (StepKind::StoreNodeHazard, 1),
                (StepKind::LoadTail, 1),
                (StepKind::LoadAnn, 1),
                (StepKind::LoadLink, 1),
                (StepKind::RecordTail, 1),
                (StepKind::LoadTail, 1),
                (StepKind::MoveTailOver, 1),
                (StepKind::LoadLink, 1),
                (StepKind::MoveHeadAnn, 1),
                (StepKind::LoadAnn, 1),
                (StepKind::LoadLink, 1),
                (StepKind::LoadValue, 1),
                (StepKind::MarkRow, 2),
                (StepKind::StoreNodeHazard, 1),
                (StepKind::StoreAnnHazard, 1),
                (StepKind::LoadHazard, 3),
                (StepKind::MarkFree, 1),
            ],
        },
        // An enqueue meets the chain of a batch whose owner stopped right behind its link, and finishes it.
        Steps {
            acts: &[
                Act::Start(0, &[Op::Enq(5), Op::Enq(6), Op::Deq]),
                Act::Until(0, StepKind::LinkChain),
                Act::Until(0, StepKind::LoadTail),
                Act::Start(1, &[Op::Enq(9)]),
            ],
            kinds: &[
                (StepKind::LoadMark, 1),
                (StepKind::ClearMark, 1),
                (StepKind::ClearLink, 1),
                (StepKind::StoreValue, 1),
                (StepKind::LoadTail, 1),
                (StepKind::StoreNodeHazard, 1),
                (StepKind::LoadTail, 1),
                (StepKind::LoadLink, 1),
                (StepKind::LoadHead, 1),
                (StepKind::StoreAnnHazard, 1),
                (StepKind::LoadHead, 1),
                (StepKind::LoadAnn, 4),
                (StepKind::LoadTail, 1),
                (StepKind::StoreNodeHazard, 1),
                (StepKind::LoadTail, 1),
                (StepKind::LoadAnn, 1),
                (StepKind::LoadLink, 1),
                (StepKind::RecordTail, 1),
                (StepKind::LoadTail, 1),
                (StepKind::MoveTailOver, 1),
                (StepKind::LoadLink, 1),
                (StepKind::MoveHeadAnn, 1),
                (StepKind::LoadTail, 1),
                (StepKind::StoreNodeHazard, 1),
                (StepKind::LoadTail, 1),
                (StepKind::LoadLink, 1),
                (StepKind::LinkSingle, 1),
                (StepKind::MoveTail, 1),
                (StepKind::StoreNodeHazard, 1),
                (StepKind::StoreAnnHazard, 1),
            ],
        },
        // A dequeue helps where the tail lags: it moves the tail over the row before it links the chain.
        Steps {
            acts: &[
                Act::Start(2, &[Op::Enq(7)]),
                Act::Until(2, StepKind::MoveTail),
                Act::Start(0, &[Op::Enq(5), Op::Enq(6), Op::Deq]),
                Act::Until(0, StepKind::Install),
                Act::Until(0, StepKind::StoreAnnHazard),
                Act::Start(1, &[Op::Deq]),
            ],
            kinds: &[
                (StepKind::LoadHead, 1),
                (StepKind::StoreAnnHazard, 1),
                (StepKind::LoadHead, 1),
                (StepKind::LoadAnn, 4),
                (StepKind::LoadTail, 1),
                (StepKind::StoreNodeHazard, 1),
                (StepKind::LoadTail, 1),
                (StepKind::LoadAnn, 1),
                (StepKind::LoadLink, 1),
                (StepKind::MoveTail, 1),
                (StepKind::LoadTail, 1),
                (StepKind::StoreNodeHazard, 1),
                (StepKind::LoadTail, 1),
                (StepKind::LoadAnn, 1),
                (StepKind::LoadLink, 1),
                (StepKind::LinkChain, 1),
                (StepKind::LoadTail, 1),
                (StepKind::StoreNodeHazard, 1),
                (StepKind::LoadTail, 1),
                (StepKind::LoadAnn, 1),
                (StepKind::LoadLink, 1),
                (StepKind::RecordTail, 1),
                (StepKind::LoadTail, 1),
                (StepKind::MoveTailOver, 1),
                (StepKind::MoveHeadAnn, 1),
                (StepKind::LoadHead, 1),
                (StepKind::StoreNodeHazard, 1),
                (StepKind::LoadHead, 1),
                (StepKind::LoadLink, 1),
                (StepKind::LoadTail, 1),
                (StepKind::LoadValue, 1),
                (StepKind::MoveHead, 1),
                (StepKind::MarkRow, 2),
                (StepKind::StoreNodeHazard, 1),
                (StepKind::StoreAnnHazard, 1),
            ],
        },
    ];
    for row in &rows {
        assert_steps(&rt, rt.alloc(), row)?;
    }
    Ok(())
}
