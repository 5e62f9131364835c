// Acts, as a table has them, and what they leave of a machine.

use bq_model::{Answer, Op, OutOfMemory};
use std::alloc::Global;
use std::test::Fail;
use step_core::{Machine, Started, StepKind};

/// What a table tells a caller to do.
#[derive(Clone, Copy)]
pub enum Act<'a> {
    Start(u32, &'a [Op]),
    /// Steps, until the caller's next one is of this kind.
    Until(u32, StepKind),
    Finish(u32),
}

/// An idle caller starts the command, where it can.
fn begin(machine: &mut Machine, caller: u32, ops: &[Op]) -> Result<(), OutOfMemory> {
    if caller < machine.callers() && machine.takes(ops) && machine.next_kind(caller).is_none() {
        let _: Started = machine.start(caller, ops)?;
    }
    Ok(())
}

/// A caller that runs a command makes its next step.
pub fn advance(machine: &mut Machine, caller: u32) {
    if caller < machine.callers() && machine.next_kind(caller).is_some() {
        let _: StepKind = machine.step(caller);
    }
}

/// Whether the caller's next step is of this kind, or, where none is named, whether the caller is idle.
pub fn is_at(machine: &Machine, caller: u32, kind: Option<StepKind>) -> bool {
    caller < machine.callers() && machine.next_kind(caller) == kind
}

/// The caller makes its steps, until the next one is of this kind, or until it is idle.
fn go_until(machine: &mut Machine, caller: u32, kind: Option<StepKind>) {
    for _ in 0..20_000 {
        if is_at(machine, caller, kind) {
            return;
        }
        advance(machine, caller);
    }
}

pub fn do_it(machine: &mut Machine, act: Act) -> Result<(), OutOfMemory> {
    match act {
        Act::Start(caller, ops) => begin(machine, caller, ops)?,
        Act::Until(caller, kind) => go_until(machine, caller, Some(kind)),
        Act::Finish(caller) => go_until(machine, caller, None),
    }
    Ok(())
}

/// The answers of a caller's last command.
pub fn answers_of(alloc: Global, machine: &Machine, caller: u32) -> Result<Vec<Answer>, Fail> {
    if caller < machine.callers() {
        return Ok(machine.answers(caller).as_slice().to_vec(alloc)?);
    }
    Ok(Vec::new(alloc))
}

/// The values that a caller gets by dequeues.
pub fn drained(alloc: Global, machine: &mut Machine, caller: u32) -> Result<Vec<u64>, Fail> {
    let mut values = Vec::new(alloc);
    for _ in 0..8 {
        begin(machine, caller, &[Op::Deq])?;
        go_until(machine, caller, None);
        if let Some(Answer::Got(value)) = answers_of(alloc, machine, caller)?.as_slice().first() {
            values.push(*value)?;
        }
    }
    Ok(values)
}
