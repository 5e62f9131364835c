// Acts, as a table has them, and what they leave of a machine.

use bq_model::{Answer, Op, OutOfMemory};
use std::alloc::Global;
use std::test::Fail;
use step_core::{CallEnd, Machine, Started, StepKind};

/// What a table tells a caller to do.
#[derive(Clone, Copy)]
pub enum Act<'a> {
    /// A whole command.
    Make(u32, &'a [Op]),
    Start(u32, &'a [Op]),
    /// Steps, until the caller's next one is of this kind.
    Until(u32, StepKind),
}

/// An idle caller starts the command, where it can.
pub fn begin(machine: &mut Machine, caller: u32, ops: &[Op]) -> Result<(), OutOfMemory> {
    if caller < machine.callers() && machine.takes(ops) && machine.next_kind(caller).is_none() {
        let _: Started = machine.start(caller, ops)?;
    }
    Ok(())
}

/// A caller that runs a command makes its next step.
pub fn advance(machine: &mut Machine, caller: u32) {
    if caller < machine.callers() && machine.next_kind(caller).is_some() {
        let _: StepKind = machine.step(caller);
    }
}

/// Whether the caller's next step is of this kind, or, where none is named, whether the caller is idle.
pub fn is_at(machine: &Machine, caller: u32, kind: Option<StepKind>) -> bool {
    caller < machine.callers() && machine.next_kind(caller) == kind
}

/// The caller makes its steps, until the next one is of this kind, or until it is idle where none is named. How many of them
/// were looks at a mark.
pub fn go_until(machine: &mut Machine, caller: u32, kind: Option<StepKind>) -> u32 {
    let mut looks = 0u32;
    for _ in 0..2_000 {
        if is_at(machine, caller, kind) {
            break;
        }
        if is_at(machine, caller, Some(StepKind::LoadMark)) {
            looks = looks.saturating_add(1);
        }
        advance(machine, caller);
    }
    looks
}

pub fn do_it(machine: &mut Machine, act: Act) -> Result<(), OutOfMemory> {
    match act {
        Act::Make(caller, ops) => {
            begin(machine, caller, ops)?;
            go_until(machine, caller, None);
        }
        Act::Start(caller, ops) => begin(machine, caller, ops)?,
        Act::Until(caller, kind) => {
            go_until(machine, caller, Some(kind));
        }
    }
    Ok(())
}

/// Whether the caller is idle, and its last command was done.
pub fn is_done(machine: &Machine, caller: u32) -> bool {
    is_at(machine, caller, None)
        && caller < machine.callers()
        && machine.result(caller) == Some(CallEnd::Done)
}

/// The answers of a caller's last command.
pub fn answers_of(alloc: Global, machine: &Machine, caller: u32) -> Result<Vec<Answer>, Fail> {
    if caller < machine.callers() {
        return Ok(machine.answers(caller).as_slice().to_vec(alloc)?);
    }
    Ok(Vec::new(alloc))
}
