// Helpers of a batch that stop anywhere.
use crate::acts::{Act, advance, answers_of, do_it, is_at};
use bq_model::{Answer, Op, Shape};
use std::alloc::Global;
use std::process::Abort;
use std::test::Fail;
use step_core::{Machine, StepKind};

/// The caller makes so many steps, or fewer where its command ends.
fn go_steps(machine: &mut Machine, caller: u32, steps: u32) {
    for _ in 0..steps {
        advance(machine, caller);
    }
}

/// How many groups of the history are of this caller and have its operations.
fn times(machine: &Machine, caller: u32, ops: &[Op]) -> u32 {
    let mut found = 0u32;
    for group in machine.history() {
        if group.caller == caller && group.ops.as_slice() == ops {
            found = found.saturating_add(1);
        }
    }
    found
}

/// What goes before, a batch of caller 0, and its answers.
#[derive(Clone, Copy)]
struct Helped<'a> {
    before: &'a [Op],
    batch: &'a [Op],
    answers: &'a [Answer],
}

/// The owner of the batch stops after its install, and three helpers stop after so many steps. The fourth goes on to the end.
fn assert_helped(rt: &impl Abort, alloc: Global, row: &Helped, stop: u32) -> Result<(), Fail> {
    let shape = Shape::new(5, 5, 8, 100, 0).ok_or("in limits")?;
    let mut machine = Machine::new(alloc, &shape)?;
    do_it(&mut machine, Act::Start(0, row.before))?;
    do_it(&mut machine, Act::Finish(0))?;
    do_it(&mut machine, Act::Start(0, row.batch))?;
    do_it(&mut machine, Act::Until(0, StepKind::Install))?;
    go_steps(&mut machine, 0, 1);
    for caller in 1..4 {
        do_it(&mut machine, Act::Start(caller, &[Op::Deq]))?;
        go_steps(&mut machine, caller, stop);
    }
    do_it(&mut machine, Act::Start(4, &[Op::Deq]))?;
    do_it(&mut machine, Act::Finish(4))?;
    assert!(rt; is_at(&machine, 4, None));
    assert_eq!(rt; times(&machine, 0, row.batch), 1);
    for caller in 0..4 {
        do_it(&mut machine, Act::Finish(caller))?;
    }
    assert_eq!(rt; times(&machine, 0, row.batch), 1);
    assert_eq!(rt; machine.history().len(), 6);
    let answers = answers_of(alloc, &machine, 0)?;
    assert_eq!(rt; answers.as_slice(), row.answers);
    Ok(())
}

#[test]
fn helpers_that_stop_anywhere_leave_one_group(rt: HostRuntime) -> Result<(), Fail> {
    let rows = [
        Helped {
            before: &[Op::Enq(1)],
            batch: &[Op::Enq(5), Op::Enq(6), Op::Deq],
            answers: &[Answer::Done, Answer::Done, Answer::Got(1)],
        },
        Helped {
            before: &[Op::Enq(1), Op::Enq(2)],
            batch: &[Op::Deq, Op::Deq, Op::Deq],
            answers: &[Answer::Got(1), Answer::Got(2), Answer::Empty],
        },
    ];
    for row in &rows {
        for stop in 0..50 {
            assert_helped(&rt, rt.alloc(), row, stop)?;
        }
    }
    Ok(())
}
