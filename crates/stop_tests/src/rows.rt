// A row that a stopped caller holds.
use crate::acts::{Act, begin, do_it, go_until, is_at, is_done};
use bq_model::{Op, Shape};
use std::alloc::Global;
use std::process::Abort;
use std::test::Fail;
use step_core::{Machine, StepKind};

/// What caller 0 does until it stops before a step of the kind, where it holds the dummy.
#[derive(Clone, Copy)]
struct Holder<'a> {
    queued: &'a [Op],
    command: &'a [Op],
    kind: StepKind,
}

/// Caller 1 makes an enqueue, and then caller 2 a dequeue. At how many of its own rows caller 1 looked: it took the last one
/// of these.
fn passes_through(rt: &impl Abort, machine: &mut Machine, value: u64) -> Result<u32, Fail> {
    begin(machine, 1, &[Op::Enq(value)])?;
    let looks = go_until(machine, 1, None);
    assert!(rt; is_done(machine, 1));
    do_it(machine, Act::Make(2, &[Op::Deq]))?;
    assert!(rt; is_done(machine, 2));
    Ok(looks)
}

/// Caller 1's first row is the dummy as caller 0 comes to hold it.
fn assert_kept(rt: &impl Abort, alloc: Global, row: &Holder) -> Result<(), Fail> {
    let shape = Shape::new(3, 4, 1, 2_000, 0).ok_or("in limits")?;
    let mut machine = Machine::new(alloc, &shape)?;
    assert_eq!(rt; passes_through(rt, &mut machine, 1)?, 1);
    do_it(&mut machine, Act::Make(2, row.queued))?;
    do_it(&mut machine, Act::Start(0, row.command))?;
    do_it(&mut machine, Act::Until(0, row.kind))?;
    for value in 0..1_000 {
        let looks = passes_through(rt, &mut machine, value)?;
        assert!(rt; 1 < looks && looks < 6, "{looks}");
    }
    assert!(rt; is_at(&machine, 0, Some(row.kind)));
    go_until(&mut machine, 0, None);
    assert!(rt; is_done(&machine, 0));
    let mut used = 0u32;
    for value in 0..12 {
        if passes_through(rt, &mut machine, value)? == 1 {
            used = used.saturating_add(1);
        }
    }
    assert!(rt; 1 < used, "{used}");
    Ok(())
}

#[test]
fn row_that_a_stopped_caller_holds_is_not_freed(rt: HostRuntime) -> Result<(), Fail> {
    let rows = [
        Holder {
            queued: &[],
            command: &[Op::Deq],
            kind: StepKind::LoadLink,
        },
        Holder {
            queued: &[Op::Enq(2)],
            command: &[Op::Deq],
            kind: StepKind::MoveHead,
        },
        // The dummy is the row of the tail, too.
        Holder {
            queued: &[],
            command: &[Op::Enq(3)],
            kind: StepKind::LinkSingle,
        },
        Holder {
            queued: &[],
            command: &[Op::Enq(3), Op::Enq(4)],
            kind: StepKind::LinkChain,
        },
        Holder {
            queued: &[Op::Enq(2), Op::Enq(3)],
            command: &[Op::Deq, Op::Deq],
            kind: StepKind::MoveHeadMany,
        },
    ];
    for row in &rows {
        assert_kept(&rt, rt.alloc(), row)?;
    }
    Ok(())
}
