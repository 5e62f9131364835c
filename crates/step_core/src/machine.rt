// A machine, which shows a lawful lane between any two steps.
ghost use Rattle.std.specs.Prelude.{◌≡◌, ◌≢◌, ℕ, ◌↔◌, ◌<◌, ◌≤◌, IfOk, IsNone, Ok, Some, [], length};
ghost use Rattle.bq_model.specs.Proper.{IsProper};
ghost use Rattle.lane_steps.specs.declared.point.Point.TheVariants.{Idle};
ghost use Rattle.core_model.specs.Kept.{LastDone};
ghost use Rattle.lane_steps.specs.LaneSizes.{lane_sizes};
ghost use Rattle.lane_steps.specs.Kind.{kind_of};
ghost use Rattle.lane_steps.specs.Step.{next};
ghost use Rattle.lane_steps.specs.Start.{PassesAllowance, IsCommand, start, opening};
ghost use Rattle.core_model.specs.Lawful.{Lawful};
ghost use Rattle.excess_count.specs.Excess.{enqueue_count};
ghost use Rattle.step_core.specs.Machine.{caller_at, enqueues_at, state_at};
ghost use Rattle.step_core.specs.Refused.{PassedRoom};

use crate::lists::Lists;
use crate::starts::Started;
use bq_model::{Answers, Group, Op, OutOfMemory, Shape};
use lane_steps::{CallEnd, StepKind};
use std::alloc::Global;
use std::marker::Model;

/// A lane whose callers make one atomic step at a time, in any order. Contracts see its words, its history, and what it
/// keeps of each caller.
#[derive(Drop)]
pub struct Machine {
    lists: Lists,
}

impl Model for Machine {
    ghost use Rattle.step_core.specs.Machine.{View};

    ghost Value = { View };

    ghost use Rattle.step_core.specs.Machine.{view_of};
    ghost use Rattle.step_core.specs.Lists.{IsSound};

    ghost view = { λ m. view_of m.lists };

    ghost invariant = { λ m. IsSound m.lists };
}

impl Machine {
    /// An empty lane, whose callers are idle.
    pub fn new(alloc: Global, shape: &Shape) -> Result<Machine, OutOfMemory>
        ensures opening { IfOk result (λ machine. state_at machine ≡ opening (lane_sizes shape.now)) }
        ensures shape { IfOk result (λ machine. machine.shape ≡ shape.now) }
    {
        Ok(Machine {
            lists: Lists::new(alloc, *shape)?,
        })
    }

    /// How many callers there are.
    pub fn callers(&self) -> u32
        ensures { result ≡ self.now.shape.callers }
    {
        self.lists.shape.callers()
    }

    /// The most operations of a batch.
    pub fn batch(&self) -> u32
        ensures { result ≡ self.now.shape.batch }
    {
        self.lists.shape.batch()
    }

    /// Starts a command of an idle caller: one operation is a plain call, and more are a batch. It takes all memory that
    /// the command's steps need.
    pub fn start(&mut self, caller: u32, ops: &[Op]) -> Result<Started, OutOfMemory>
        requires known { caller < self.old.shape.callers }
        requires idle { (caller_at self.old caller).point ≡ Idle }
        requires command { IsCommand ops.now }
        requires most { length ops.now ≤ self.old.shape.batch }
        ensures spent { (result ≡ Ok Started.Spent) ↔ PassesAllowance (lane_sizes self.old.shape) (caller_at self.old caller) (length ops.now) }
        ensures running { (result ≡ Ok Started.Running) → state_at self.new ≡ start (lane_sizes self.old.shape) (state_at self.old) caller ops.now }
        ensures runs { (result ≡ Ok Started.Running) → (caller_at self.new caller).point ≢ Idle }
        ensures refusal_changes_nothing { result ≢ Ok Started.Running → state_at self.new ≡ state_at self.old }
        ensures counts_its_enqueues { (result ≡ Ok Started.Running) → enqueues_at self.new caller ≡ enqueue_count ops.now }
        ensures others_keep_their_number { (c : ℕ) → c ≢ caller → enqueues_at self.new c ≡ enqueues_at self.old c }
        ensures refusal_counts_nothing { result ≢ Ok Started.Running → self.new.enqueues ≡ self.old.enqueues }
        ensures shape { self.new.shape ≡ self.old.shape }
    {
        self.lists.start(caller, ops)
    }

    /// Makes the next atomic step of a caller that is not idle, and gives its kind. It takes no memory. The last step of a
    /// batch also pairs its answers, at a cost of its length.
    pub fn step(&mut self, caller: u32) -> StepKind
        requires known { caller < self.old.shape.callers }
        requires runs { (caller_at self.old caller).point ≢ Idle }
        ensures step { state_at self.new ≡ next (lane_sizes self.old.shape) (state_at self.old) caller }
        ensures kind { kind_of (caller_at self.old caller).point ≡ Some result }
        ensures shape { self.new.shape ≡ self.old.shape }
        ensures numbers_of_enqueues_stay { self.new.enqueues ≡ self.old.enqueues }
    {
        self.lists.step(caller)
    }

    /// The kind of the caller's next step.
    pub fn next_kind(&self, caller: u32) -> Option<StepKind>
        requires { caller < self.now.shape.callers }
        ensures kind { result ≡ kind_of (caller_at self.now caller).point }
        ensures none_where_idle { IsNone result ↔ ((caller_at self.now caller).point ≡ Idle) }
    {
        self.lists.calls[caller as usize].point.kind()
    }

    /// How the caller's last command that ended did end.
    pub fn result(&self, caller: u32) -> Option<CallEnd>
        requires { caller < self.now.shape.callers }
        ensures outcome { result ≡ (caller_at self.now caller).outcome }
        ensures full_passed_the_room { (caller_at self.now caller).point ≡ Idle → result ≡ Some CallEnd.Full
            → PassedRoom self.now.shape.room self.now.history caller (caller_at self.now caller).started_at (caller_at self.now caller).ended_at (enqueues_at self.now caller) }
    {
        self.lists.calls[caller as usize].outcome
    }

    /// The answers of that command, none after Full.
    pub fn answers(&self, caller: u32) -> &Answers
        requires { caller < self.now.shape.callers }
        ensures answers { result.now.items ≡ (caller_at self.now caller).answers }
        ensures of_a_command_that_was_done { (caller_at self.now caller).outcome ≡ Some CallEnd.Done → LastDone self.now.history caller (caller_at self.now caller) }
        ensures none_else { (caller_at self.now caller).outcome ≢ Some CallEnd.Done → result.now.items ≡ [] }
    {
        &self.lists.calls[caller as usize].answers
    }

    /// How many groups the history had at the start of the caller's last command.
    pub fn started_at(&self, caller: u32) -> usize
        requires { caller < self.now.shape.callers }
        ensures { result ≡ (caller_at self.now caller).started_at }
    {
        self.lists.calls[caller as usize].started_at
    }

    /// How many groups the history had at that command's end, where it has ended.
    pub fn ended_at(&self, caller: u32) -> Option<usize>
        requires { caller < self.now.shape.callers }
        ensures { result ≡ (caller_at self.now caller).ended_at }
    {
        self.lists.calls[caller as usize].ended_at
    }

    /// The history of the lane.
    pub fn history(&self) -> &[Group]
        ensures history { result.now ≡ self.now.history }
        ensures proper { IsProper self.now.shape.callers result.now }
        ensures lawful { Lawful (lane_sizes self.now.shape) (state_at self.now) }
    {
        self.lists.history.as_slice()
    }
}
