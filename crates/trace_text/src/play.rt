// A machine that is played: what was refused, and how many steps may still be made.
ghost use Rattle.std.specs.Prelude.{◌≡◌, ◌≢◌, ◌<◌, ◌≤◌, true, false, ◌++◌, [], length, IfOk, OnOk, OnErr};
ghost use Rattle.bq_model.specs.NoShut.{NoShut, NeverShut};
ghost use Rattle.bq_model.specs.Proper.{IsProper};
ghost use Rattle.text_lines.specs.Refusals.{ReadsLine};
ghost use Rattle.trace_text.specs.Played.{state_of, refusals_of, refusal, is_idle, ended_full, begun, stops, stepped, ran};
ghost use Rattle.trace_text.specs.ScheduleText.{is_startable};
ghost use Rattle.lane_steps.specs.declared.point.Point.TheVariants.{Idle};
ghost use Rattle.step_core.specs.Machine.{caller_at, state_at};
ghost use Rattle.step_core.specs.Schedule.{after_event};
ghost use Rattle.step_core.specs.declared.schedule.Event.TheVariants as event;

use crate::kinds::kind_name;
use bq_model::{Group, Op, Ops, OutOfMemory, Refusal, Shape, TextCause};
use lane_steps::CallEnd;
use std::alloc::Global;
use std::marker::Model;
use step_core::{Event, Machine, Started, StepKind};
use text_lines::LineRefused;

/// The most steps of a schedule.
const MOST_STEPS: u32 = 1_000_000;

/// A command that was refused.
#[derive(Clone, Copy, Debug, PartialEq, Eq)]
pub struct Refused {
    /// Whose command it was.
    pub caller: u32,
    /// Why it was refused.
    pub reason: Refusal,
}

/// The machine of a schedule, what has happened to it, how many steps may still be made, and what was refused.
#[derive(Drop)]
pub(crate) struct Play {
    machine: Machine,
    events: Vec<Event>,
    left: u32,
    refused: Vec<Refused>,
}

impl Model for Play {
    ghost use Rattle.step_core.specs.Machine.{state_at};
    ghost use Rattle.trace_text.specs.Played.{Playing};
    ghost use Rattle.trace_text.specs.PlayState.{IsPlayed};

    ghost Value = { Playing };

    ghost view = { λ p. record { shape = p.machine.shape; events = p.events.items } };

    ghost invariant = { λ p. IsPlayed p.machine.shape (state_at p.machine) p.events.items p.left p.refused.items };
}

impl Play {
    /// A machine of this shape, before its first command.
    pub(crate) fn open(alloc: Global, shape: &Shape) -> Result<Play, OutOfMemory>
        ensures { IfOk result (λ play. play ≡ record { shape = shape.now; events = [] }) }
    {
        Ok(Play {
            machine: Machine::new(alloc, shape)?,
            events: Vec::new(alloc),
            left: MOST_STEPS,
            refused: Vec::new(alloc),
        })
    }

    /// How many callers there are.
    pub(crate) fn callers(&self) -> u32
        ensures { result ≡ self.now.shape.callers }
    {
        self.machine.callers()
    }

    /// Whether a caller has no next step.
    pub(crate) fn is_idle(&self, caller: u32) -> bool
        requires { caller < self.now.shape.callers }
        ensures { result ≡ is_idle (state_of self.now) caller }
    {
        self.machine.next_kind(caller).is_none()
    }

    /// The history of the machine.
    pub(crate) fn history(&self) -> &[Group]
        ensures history { result.now ≡ (state_of self.now).history }
        ensures proper { IsProper self.now.shape.callers result.now }
        ensures never_shut { NeverShut result.now }
    {
        self.machine.history()
    }

    /// The commands that were refused, first to last.
    pub(crate) fn refused(&self) -> &[Refused]
        ensures { result.now ≡ refusals_of self.now }
    {
        self.refused.as_slice()
    }

    /// Starts a command of a caller.
    pub(crate) fn begin(&mut self, caller: u32, ops: Ops) -> Result<(), LineRefused>
        requires known { caller < self.old.shape.callers }
        requires startable { is_startable ops ≡ true }
        requires no_shut { NoShut ops }
        ensures { ReadsLine (begun self.old caller ops) result self.new }
    {
        if self.machine.next_kind(caller).is_some() {
            return Err(LineRefused::Cause(TextCause::BusyCaller));
        }
        if ops.len() > self.machine.batch() as usize {
            return Err(LineRefused::Cause(TextCause::BlockTooLong));
        }
        if self.events.reserve(1).is_err() {
            return Err(LineRefused::NoMemory);
        }
        start(&mut self.machine, &mut self.refused, caller, ops.as_slice())?;
        self.events.push_reserved(Event::Start { caller, ops });
        Ok(())
    }

    // Whether a caller is idle, or its next step is of the kind of this name.
    fn stops(&self, caller: u32, name: &[u8]) -> bool
        requires { caller < self.now.shape.callers }
        ensures { result ≡ stops name.now caller self.now }
    {
        match self.machine.next_kind(caller) {
            Some(kind) => kind_name(kind) == name,
            None => true,
        }
    }

    /// Makes steps of a caller until its next step is of the kind of this name, it is idle, or it has made as many as
    /// the limit.
    pub(crate) fn run(&mut self, name: &[u8], limit: u64, caller: u32) -> Result<(), LineRefused>
        requires { caller < self.old.shape.callers }
        ensures { ReadsLine (ran name.now limit caller self.old) result self.new }
    {
        let mut to_go = limit;
        while to_go > 0 && !self.stops(caller, name) {
            self.step(caller)?;
            to_go -= 1;
        }
        Ok(())
    }

    // Makes a step of a caller that is not idle, if one may still be made.
    fn step(&mut self, caller: u32) -> Result<(), LineRefused>
        requires known { caller < self.old.shape.callers }
        requires runs { is_idle (state_of self.old) caller ≡ false }
        ensures { ReadsLine (stepped self.old caller) result self.new }
    {
        if self.left == 0 {
            return Err(LineRefused::Cause(TextCause::TooMany));
        }
        if self.events.reserve(1).is_err() {
            return Err(LineRefused::NoMemory);
        }
        step(&mut self.machine, &mut self.refused, caller)?;
        self.events.push_reserved(Event::Step { caller });
        self.left -= 1;
        Ok(())
    }
}

// Starts the command of an idle caller. Where it is refused, it appends that to the refusals.
fn start(
    machine: &mut Machine,
    refused: &mut Vec<Refused>,
    caller: u32,
    ops: &[Op],
) -> Result<(), OutOfMemory>
    requires known { caller < machine.old.shape.callers }
    requires idle { (caller_at machine.old caller).point ≡ Idle }
    requires startable { is_startable ops.now ≡ true }
    requires no_shut { NoShut ops.now }
    requires most { length ops.now ≤ machine.old.shape.batch }
    ensures state { OnOk result (state_at machine.new ≡ after_event machine.old.shape (state_at machine.old) (event.Start caller ops.now)) }
    ensures refused { OnOk result (refused.new.items ≡ refused.old.items ++ refusal machine.old.shape (state_at machine.old) (event.Start caller ops.now)) }
    ensures shape { machine.new.shape ≡ machine.old.shape }
    ensures state_stays { OnErr result (state_at machine.new ≡ state_at machine.old) }
    ensures refused_stay { OnErr result (refused.new.items ≡ refused.old.items) }
{
    refused.reserve(1)?;
    match machine.start(caller, ops)? {
        Started::Spent => refused.push_reserved(Refused {
            caller,
            reason: Refusal::Spent,
        }),
        Started::Running => {}
    }
    Ok(())
}

// Makes a step of a caller that is not idle. Where its command ends with Full, it appends that to the refusals.
fn step(machine: &mut Machine, refused: &mut Vec<Refused>, caller: u32) -> Result<(), OutOfMemory>
    requires known { caller < machine.old.shape.callers }
    requires runs { (caller_at machine.old caller).point ≢ Idle }
    ensures state { OnOk result (state_at machine.new ≡ after_event machine.old.shape (state_at machine.old) (event.Step caller)) }
    ensures refused { OnOk result (refused.new.items ≡ refused.old.items ++ refusal machine.old.shape (state_at machine.old) (event.Step caller)) }
    ensures shape { machine.new.shape ≡ machine.old.shape }
    ensures state_stays { OnErr result (state_at machine.new ≡ state_at machine.old) }
    ensures refused_stay { OnErr result (refused.new.items ≡ refused.old.items) }
{
    refused.reserve(1)?;
    let _: StepKind = machine.step(caller);
    if ended_full(machine, caller) {
        refused.push_reserved(Refused {
            caller,
            reason: Refusal::Full,
        });
    }
    Ok(())
}

// Whether a caller is idle and its last command ended with Full.
fn ended_full(machine: &Machine, caller: u32) -> bool
    requires { caller < machine.now.shape.callers }
    ensures { result ≡ ended_full (state_at machine.now) caller }
{
    machine.next_kind(caller).is_none()
        && match machine.result(caller) {
            Some(CallEnd::Full) => true,
            Some(CallEnd::Done) | None => false,
        }
}
