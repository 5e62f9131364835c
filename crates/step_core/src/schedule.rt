// Lists of events.
ghost use Rattle.std.specs.Prelude.{◌≡◌, ◌<◌, ◌≤◌, ℕ, nat_lt, true, length, IfOk, OnOk, Ok, Err, None};
ghost use Rattle.step_core.specs.declared.schedule.EventCause.{EventCause};
ghost use Rattle.step_core.specs.declared.schedule.ScheduleRefused.TheVariants.{Memory};
ghost use Rattle.lane_steps.specs.LaneSizes.{lane_sizes};
ghost use Rattle.lane_steps.specs.Start.{IsCommand, opening};
ghost use Rattle.step_core.specs.Machine.{caller_at, state_at};
ghost use Rattle.step_core.specs.Commands.{is_shut, none_shuts, is_command};
ghost use Rattle.step_core.specs.Due.{is_idle};
ghost use Rattle.step_core.specs.Schedule.{cause_of, after_event, schedule};

use crate::machine::Machine;
use crate::starts::Started;
use bq_model::{Op, Ops, OutOfMemory, Shape};
use lane_steps::StepKind;
use std::alloc::Global;

/// Something that happens to a machine.
#[derive(Debug, Drop)]
pub enum Event {
    /// A caller starts a command.
    Start {
        /// The number of the caller.
        caller: u32,
        /// The operations of the command.
        ops: Ops,
    },
    /// A caller makes its next atomic step.
    Step {
        /// The number of the caller.
        caller: u32,
    },
}

/// Why an event cannot happen.
#[derive(Clone, Copy, Debug, PartialEq, Eq, Hash)]
pub enum EventCause {
    /// There is no such caller.
    BadCaller,
    /// A command is started with no operation, with more than the lane takes in a batch, or with a Shut.
    BadBatch,
    /// A command is started by a caller that runs one.
    BusyCaller,
    /// A caller that runs no command makes a step.
    IdleCaller,
}

/// Why a schedule was not run to its end.
#[derive(Clone, Copy, Debug, PartialEq, Eq, Hash)]
pub enum ScheduleRefused {
    /// An event cannot happen, the first one.
    At {
        /// Its number, from 0.
        event: usize,
        /// Why it cannot.
        cause: EventCause,
    },
    /// Memory was lacking.
    Memory,
}

impl From<OutOfMemory> for ScheduleRefused {
    ghost from_gives = { λ _ refused. refused ≡ Memory };

    fn from(_error: OutOfMemory) -> Self {
        ScheduleRefused::Memory
    }
}

fn is_shut(op: Op) -> bool
    ensures { result ≡ is_shut op }
{
    matches!(op, Op::Shut)
}

// Whether none of the operations is a Shut.
fn none_shuts(ops: &[Op]) -> bool
    ensures { result ≡ none_shuts ops.now }
{
    for op in ops {
        if is_shut(*op) {
            return false;
        }
    }
    true
}

impl Machine {
    fn is_idle(&self, caller: u32) -> bool
        requires { caller < self.now.shape.callers }
        ensures { result ≡ is_idle (caller_at self.now caller).point }
    {
        self.next_kind(caller).is_none()
    }

    fn is_caller(&self, caller: u32) -> bool
        ensures { result ≡ nat_lt caller self.now.shape.callers }
    {
        caller < self.callers()
    }

    /// Whether the lane takes the operations as a command.
    pub fn takes(&self, ops: &[Op]) -> bool
        ensures by_definition { result ≡ is_command self.now.shape.batch ops.now }
        ensures can_start { result ≡ true → IsCommand ops.now × (length ops.now ≤ self.now.shape.batch) }
    {
        !ops.is_empty() && ops.len() <= self.batch() as usize && none_shuts(ops)
    }

    // Why the event cannot happen now.
    pub(crate) fn cause(&self, event: &Event) -> Option<EventCause>
        ensures { result ≡ cause_of self.now.shape (state_at self.now) event.now }
    {
        match event {
            Event::Start { caller, ops } => {
                if !self.is_caller(*caller) {
                    Some(EventCause::BadCaller)
                } else if !self.takes(ops.as_slice()) {
                    Some(EventCause::BadBatch)
                } else if !self.is_idle(*caller) {
                    Some(EventCause::BusyCaller)
                } else {
                    None
                }
            }
            Event::Step { caller } => {
                if !self.is_caller(*caller) {
                    Some(EventCause::BadCaller)
                } else if self.is_idle(*caller) {
                    Some(EventCause::IdleCaller)
                } else {
                    None
                }
            }
        }
    }

    // The event happens.
    pub(crate) fn happen(&mut self, event: &Event) -> Result<(), OutOfMemory>
        requires { cause_of self.old.shape (state_at self.old) event.now ≡ None }
        ensures after { OnOk result (state_at self.new ≡ after_event self.old.shape (state_at self.old) event.now) }
        ensures shape { self.new.shape ≡ self.old.shape }
    {
        match event {
            Event::Start { caller, ops } => {
                let _: Started = self.start(*caller, ops.as_slice())?;
            }
            Event::Step { caller } => {
                let _: StepKind = self.step(*caller);
            }
        }
        Ok(())
    }
}

/// Runs the events on a new machine, until one of them cannot happen.
pub fn run_schedule(
    alloc: Global,
    shape: &Shape,
    events: &[Event],
) -> Result<Machine, ScheduleRefused>
    ensures ran { IfOk result (λ machine. schedule shape.now (opening (lane_sizes shape.now)) 0 events.now ≡ Ok (state_at machine)) }
    ensures shape { IfOk result (λ machine. machine.shape ≡ shape.now) }
    ensures first_cause { (event : ℕ) (cause : EventCause) → result ≡ Err (ScheduleRefused.At event cause)
        → schedule shape.now (opening (lane_sizes shape.now)) 0 events.now ≡ Err (event, cause) }
{
    let mut machine = Machine::new(alloc, shape)?;
    for (event, happening) in events.iter().enumerate() {
        if let Some(cause) = machine.cause(happening) {
            return Err(ScheduleRefused::At { event, cause });
        }
        machine.happen(happening)?;
    }
    Ok(machine)
}
