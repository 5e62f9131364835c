// The steps of single operations, and commands without a row or an allowance.
ghost use Rattle.std.specs.Prelude.{◌≡◌, ◌<◌};

use bq_model::{Answer, Op, OutOfMemory, Shape};
use std::alloc::Global;
use std::test::Fail;
use step_core::{CallEnd, Machine, Started, StepKind};

/// The caller makes its next step, or starts a command with the operation.
pub fn go_on(machine: &mut Machine, caller: u32, op: Op) -> Result<Option<StepKind>, OutOfMemory>
    requires { caller < machine.old.shape.callers }
    ensures { machine.new.shape ≡ machine.old.shape }
{
    match machine.next_kind(caller) {
        Some(_) => Ok(Some(machine.step(caller))),
        None => {
            if machine.takes(&[op]) {
                let _: Started = machine.start(caller, &[op])?;
            }
            Ok(None)
        }
    }
}

/// The kinds of a command's steps, to its end.
fn kinds_of(alloc: Global, machine: &mut Machine, op: Op) -> Result<Vec<StepKind>, OutOfMemory>
    requires { 0 < machine.old.shape.callers }
    ensures { machine.new.shape ≡ machine.old.shape }
{
    let mut kinds = Vec::new(alloc);
    go_on(machine, 0, op)?;
    for _ in 0..20 {
        if machine.next_kind(0).is_some() {
            if let Some(kind) = go_on(machine, 0, op)? {
                kinds.push(kind)?;
            }
        }
    }
    Ok(kinds)
}

#[test]
fn steps_come_in_their_order(rt: HostRuntime) -> Result<(), Fail> {
    let shape = Shape::new(1, 1, 1, 10, 0).ok_or("in limits")?;
    let mut machine = Machine::new(rt.alloc(), &shape)?;
    let enqueue = [
        StepKind::LoadMark,
        StepKind::ClearMark,
        StepKind::ClearLink,
        StepKind::StoreValue,
        StepKind::LoadTail,
        StepKind::StoreNodeHazard,
        StepKind::LoadTail,
        StepKind::LoadLink,
        StepKind::LinkSingle,
        StepKind::MoveTail,
        StepKind::StoreNodeHazard,
    ];
    let dequeue = [
        StepKind::LoadHead,
        StepKind::StoreNodeHazard,
        StepKind::LoadHead,
        StepKind::LoadLink,
        StepKind::LoadTail,
        StepKind::LoadValue,
        StepKind::MoveHead,
        StepKind::MarkRow,
        StepKind::MarkRow,
        StepKind::StoreNodeHazard,
        StepKind::LoadHazard,
        StepKind::MarkFree,
    ];
    let kinds = kinds_of(rt.alloc(), &mut machine, Op::Enq(3))?;
    assert_eq!(rt; kinds.as_slice(), enqueue.as_slice());
    let kinds = kinds_of(rt.alloc(), &mut machine, Op::Deq)?;
    assert_eq!(rt; kinds.as_slice(), dequeue.as_slice());
    Ok(())
}

#[test]
fn sixth_enqueue_finds_no_row_and_eleventh_operation_is_spent(rt: HostRuntime) -> Result<(), Fail> {
    // With room 1 a single caller has 1 + 1 + 1 * (1 + 1 + 1) item rows, which is 5.
    let shape = Shape::new(1, 1, 1, 10, 0).ok_or("in limits")?;
    let mut machine = Machine::new(rt.alloc(), &shape)?;
    for value in 0..5 {
        kinds_of(rt.alloc(), &mut machine, Op::Enq(value))?;
    }
    assert!(rt; machine.result(0) == Some(CallEnd::Done));
    assert_eq!(rt; (machine.started_at(0), machine.ended_at(0)), (4, Some(5)));
    let kinds = kinds_of(rt.alloc(), &mut machine, Op::Enq(5))?;
    assert_eq!(rt; kinds.as_slice(), [StepKind::LoadMark; 5].as_slice());
    assert!(rt; machine.result(0) == Some(CallEnd::Full));
    assert!(rt; machine.answers(0).is_empty());
    assert_eq!(rt; (machine.started_at(0), machine.ended_at(0)), (5, Some(5)));
    for _ in 0..5 {
        kinds_of(rt.alloc(), &mut machine, Op::Deq)?;
    }
    assert_eq!(rt; machine.answers(0).as_slice(), [Answer::Got(4)].as_slice());
    assert!(rt; machine.next_kind(0).is_none());
    assert!(rt; machine.start(0, &[Op::Deq])? == Started::Spent);
    assert_eq!(rt; machine.history().len(), 10);
    Ok(())
}

#[test]
fn five_rows_serve_a_thousand_values(rt: HostRuntime) -> Result<(), Fail> {
    let shape = Shape::new(1, 1, 1, 3_000, 0).ok_or("in limits")?;
    let mut machine = Machine::new(rt.alloc(), &shape)?;
    for round in 0..250 {
        // One of the five is the dummy.
        for value in 0..4 {
            kinds_of(rt.alloc(), &mut machine, Op::Enq(round * 4 + value))?;
            assert!(rt; machine.result(0) == Some(CallEnd::Done));
        }
        for value in 0..4 {
            kinds_of(rt.alloc(), &mut machine, Op::Deq)?;
            let got = [Answer::Got(round * 4 + value)];
            assert_eq!(rt; machine.answers(0).as_slice(), got.as_slice());
        }
    }
    assert_eq!(rt; machine.history().len(), 2_000);
    Ok(())
}
