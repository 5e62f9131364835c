// All short schedules of two callers, against a queue.
ghost use Rattle.std.specs.Prelude.{◌≡◌, ◌<◌};

use crate::plain::go_on;
use bq_model::{Answer, Op, Shape};
use std::alloc::Global;
use std::collections::VecDeque;
use std::process::Abort;
use std::test::Fail;
use step_core::Machine;

/// The answer of a queue to an operation.
fn answer_of(queue: &mut VecDeque<u64>, op: Op) -> Result<Answer, Fail> {
    Ok(match op {
        Op::Enq(value) => {
            queue.push_back(value)?;
            Answer::Done
        }
        Op::Deq => match queue.pop_front() {
            Some(value) => Answer::Got(value),
            None => Answer::Empty,
        },
        // No command here is one.
        Op::Shut => Answer::Done,
    })
}

/// The answers of two callers, each in the order of the commands.
#[derive(Drop)]
struct Notes {
    first: Vec<Answer>,
    second: Vec<Answer>,
}

/// A caller's next step or start. Where its command ends with it, its answer is noted.
fn go_on_and_note(
    machine: &mut Machine,
    caller: u32,
    op: Op,
    notes: &mut Vec<Answer>,
) -> Result<(), Fail>
    requires { caller < machine.old.shape.callers }
    ensures { machine.new.shape ≡ machine.old.shape }
{
    let stepped = go_on(machine, caller, op)?.is_some();
    if stepped && machine.next_kind(caller).is_none() {
        if let Some(answer) = machine.answers(caller).as_slice().first() {
            notes.push(*answer)?;
        }
    }
    Ok(())
}

/// Eight turns of two callers, and then both go on to the end of their commands. The number says who has each turn, and
/// which operation is started by one that is idle.
fn notes_of(alloc: Global, machine: &mut Machine, choices: u32) -> Result<Notes, Fail>
    requires { machine.old.shape.callers ≡ 2 }
    ensures { machine.new.shape ≡ machine.old.shape }
{
    let mut first = Vec::new(alloc);
    let mut second = Vec::new(alloc);
    let mut left = choices;
    for turn in 0..120 {
        if turn >= 8 && machine.next_kind(0).is_none() && machine.next_kind(1).is_none() {
            break;
        }
        let op = match left % 2 {
            0 => Op::Enq(u64::from(choices)),
            _ => Op::Deq,
        };
        let is_second = if turn < 8 {
            left / 2 % 2 == 1
        } else {
            turn % 2 == 1
        };
        left /= 4;
        if is_second {
            if turn < 8 || machine.next_kind(1).is_some() {
                go_on_and_note(machine, 1, op, &mut second)?;
            }
        } else if turn < 8 || machine.next_kind(0).is_some() {
            go_on_and_note(machine, 0, op, &mut first)?;
        }
    }
    Ok(Notes { first, second })
}

/// The history is one whose answers were noted.
fn assert_noted(
    rt: &impl Abort,
    alloc: Global,
    machine: &Machine,
    notes: &Notes,
) -> Result<(), Fail> {
    let mut queue = VecDeque::new(alloc);
    for group in machine.history() {
        if let Some(op) = group.ops.as_slice().first() {
            let of_caller = match group.caller {
                0 => &notes.first,
                _ => &notes.second,
            };
            let noted = of_caller.get(group.batch as usize).copied();
            assert_eq!(rt; noted, Some(answer_of(&mut queue, *op)?));
        }
    }
    Ok(())
}

#[test]
fn all_short_schedules_answer_as_a_queue(rt: HostRuntime) -> Result<(), Fail> {
    let shape = Shape::new(2, 1, 2, 20, 0).ok_or("in limits")?;
    for choices in 0..65_536 {
        let mut machine = Machine::new(rt.alloc(), &shape)?;
        assert!(rt; machine.callers() == 2);
        let notes = notes_of(rt.alloc(), &mut machine, choices)?;
        assert_noted(&rt, rt.alloc(), &machine, &notes)?;
    }
    Ok(())
}
