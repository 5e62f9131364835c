// The machine's state in lists. It shows a lawful lane between any two steps, and all memory that the running commands
// will need is there.
ghost use Rattle.std.specs.Prelude.{◌≡◌, ◌≢◌, ℕ, ◌+◌, ◌<◌, ◌≤◌, ◌++◌, [], ◌∷◌, IsTrue, IfOk, IfSome, length, slice_get, cond, All, vec_len, vec_capacity, Some};
ghost use Rattle.lane_steps.specs.declared.point.Point.TheVariants.{Idle};
ghost use Rattle.lane_steps.specs.Functions.{put};
ghost use Rattle.lane_steps.specs.Kind.{kind_of};
ghost use Rattle.lane_steps.specs.LaneSizes.{lane_sizes};
ghost use Rattle.lane_steps.specs.Start.{newcomer, opening};
ghost use Rattle.lane_steps.specs.State.{own_group};
ghost use Rattle.lane_steps.specs.Step.{after, linearizes, history_with, group_owner, next};
ghost use Rattle.step_core.specs.Calls.{call_of, IsReady, MayGo};
ghost use Rattle.step_core.specs.Due.{due};
ghost use Rattle.step_core.specs.Lists.{callers_of, state_of, copy_at, all_due, MayLinearize, IsSound};

use crate::call::Call;
use crate::words::Words;
use bq_model::{Group, Ops, OutOfMemory, Shape};
use lane_steps::{HelpPoint, Point, StepKind};
use std::alloc::Global;
use std::mem;
use word_rows::{Content, anns, rows};

// So many callers that made no command yet.
fn newcomers(alloc: Global, shape: &Shape) -> Result<Vec<Call>, OutOfMemory>
    ensures len { IfOk result (λ calls. vec_len calls ≡ shape.now.callers) }
    ensures newcomers { IfOk result (λ calls. All (λ call. call_of call ≡ newcomer) calls.items) }
    ensures ready { IfOk result (λ calls. All (IsReady shape.now.batch shape.now.callers) calls.items) }
{
    let mut calls = Vec::new(alloc);
    for _made in 0..shape.callers() {
        calls.push(Call::new(alloc, shape)?)?;
    }
    Ok(calls)
}

fn no_copies(alloc: Global, callers: u32) -> Result<Vec<Ops>, OutOfMemory>
    ensures len { IfOk result (λ copies. vec_len copies ≡ callers) }
{
    let mut copies = Vec::new(alloc);
    for _made in 0..callers {
        copies.push(Ops::new(alloc))?;
    }
    Ok(copies)
}

// A number of enqueues for each caller that made no command yet.
fn no_enqueues(alloc: Global, callers: u32) -> Result<Vec<u32>, OutOfMemory>
    ensures len { IfOk result (λ enqueues. vec_len enqueues ≡ callers) }
{
    let mut enqueues = Vec::new(alloc);
    for _made in 0..callers {
        enqueues.push(0)?;
    }
    Ok(enqueues)
}

/// The state of a machine.
#[derive(Drop)]
pub struct Lists {
    pub alloc: Global,
    pub shape: Shape,
    pub words: Words,
    pub history: Vec<Group>,
    pub calls: Vec<Call>,
    /// For each caller the operations of its running command once more: those of its group in the history.
    pub copies: Vec<Ops>,
    /// For each caller how many enqueues its last command has.
    pub enqueues: Vec<u32>,
}

// Whose group the step adds to the history: that of the announcement's owner where it links a chain or a stopper or decides,
// else its caller's.
fn group_owner(shape: &Shape, caller: u32, point: Point) -> u32
    ensures { result ≡ group_owner (lane_sizes shape.now) caller point }
{
    match point {
        Point::Help(help, HelpPoint::LinkChain(_) | HelpPoint::Decide(_)) => {
            help.ann / shape.callers()
        }
        _ => caller,
    }
}

impl Lists {
    /// An empty lane, whose callers are idle.
    pub fn new(alloc: Global, shape: Shape) -> Result<Lists, OutOfMemory>
        ensures opening { IfOk result (λ lists. state_of lists ≡ opening (lane_sizes shape)) }
        ensures sound { IfOk result (λ lists. IsSound lists) }
        ensures shape { IfOk result (λ lists. lists.shape ≡ shape) }
    {
        let words = Words::new(
            alloc,
            rows(&shape) as usize,
            anns(&shape) as usize,
            shape.callers() as usize,
            shape.first_count(),
        )?;
        let calls = newcomers(alloc, &shape)?;
        let copies = no_copies(alloc, shape.callers())?;
        let enqueues = no_enqueues(alloc, shape.callers())?;
        Ok(Lists {
            alloc,
            shape,
            words,
            history: Vec::new(alloc),
            calls,
            copies,
            enqueues,
        })
    }

    fn point(&self, caller: u32) -> Point
        requires { caller < vec_len self.now.calls }
        ensures { result ≡ (callers_of self.now.calls.items caller).point }
    {
        self.calls[caller as usize].point
    }

    // How many groups the caller made.
    fn batch(&self, caller: u32) -> u64
        requires { caller < vec_len self.now.calls }
        ensures { result ≡ length (callers_of self.now.calls.items caller).mine }
    {
        self.calls[caller as usize].mine.len() as u64
    }

    // The history gets this caller's group, whose operations are those of its copy.
    fn linearize(&mut self, caller: u32)
        requires calls { caller < vec_len self.old.calls }
        requires copies { caller < vec_len self.old.copies }
        requires room { vec_len self.old.history < vec_capacity self.old.history }
        requires copied { copy_at self.old.copies.items caller ≡ (callers_of self.old.calls.items caller).ops }
        ensures history { self.new.history.items ≡ self.old.history.items ++ own_group caller (callers_of self.old.calls.items caller) ∷ [] }
        ensures len { vec_len self.new.history ≡ vec_len self.old.history + 1 }
        ensures capacity { vec_capacity self.new.history ≡ vec_capacity self.old.history }
        ensures others { (c : ℕ) → c ≢ caller → copy_at self.new.copies.items c ≡ copy_at self.old.copies.items c }
        ensures copies_len { vec_len self.new.copies ≡ vec_len self.old.copies }
        ensures shape { self.new.shape ≡ self.old.shape }
        ensures words { self.new.words ≡ self.old.words }
        ensures calls_stay { self.new.calls ≡ self.old.calls }
        ensures enqueues_stay { self.new.enqueues ≡ self.old.enqueues }
    {
        let batch = self.batch(caller);
        let ops = mem::replace(&mut self.copies[caller as usize], Ops::new(self.alloc));
        self.history.push_reserved(Group { caller, batch, ops });
    }

    // The history gets the group that the step of the caller adds, if it adds one.
    fn add_group(&mut self, caller: u32, point: Point, found: Content)
        requires may_linearize { IsTrue (linearizes point found) → MayLinearize self.old (group_owner (lane_sizes self.old.shape) caller point) }
        ensures history { self.new.history.items ≡ history_with (lane_sizes self.old.shape) (state_of self.old) caller point found }
        ensures len { vec_len self.new.history ≡ vec_len self.old.history + cond (linearizes point found) 1 0 }
        ensures capacity { vec_capacity self.new.history ≡ vec_capacity self.old.history }
        ensures others { (c : ℕ) → c ≢ group_owner (lane_sizes self.old.shape) caller point → copy_at self.new.copies.items c ≡ copy_at self.old.copies.items c }
        ensures none_added { ¬ (IsTrue (linearizes point found)) → self.new.copies ≡ self.old.copies }
        ensures copies_len { vec_len self.new.copies ≡ vec_len self.old.copies }
        ensures shape { self.new.shape ≡ self.old.shape }
        ensures words { self.new.words ≡ self.old.words }
        ensures calls_stay { self.new.calls ≡ self.old.calls }
        ensures enqueues_stay { self.new.enqueues ≡ self.old.enqueues }
    {
        if point.linearizes(found) {
            let caller = group_owner(&self.shape, caller, point);
            self.linearize(caller);
        }
    }

    // The caller goes on.
    fn go(&mut self, caller: u32, found: Content)
        requires inside { caller < vec_len self.old.calls }
        requires may_go { IfSome (slice_get self.old.calls.items caller) (MayGo self.old.shape caller) }
        requires ready { All (IsReady self.old.shape.batch self.old.shape.callers) self.old.calls.items }
        ensures callers { callers_of self.new.calls.items ≡ put (callers_of self.old.calls.items) caller
            (after (lane_sizes self.old.shape) (vec_len self.old.history) caller (callers_of self.old.calls.items caller) (callers_of self.old.calls.items caller).point found) }
        ensures due { all_due self.new.calls.items + due (callers_of self.old.calls.items caller)
            ≡ all_due self.old.calls.items + due (callers_of self.new.calls.items caller) }
        ensures ready { All (IsReady self.old.shape.batch self.old.shape.callers) self.new.calls.items }
        ensures len { vec_len self.new.calls ≡ vec_len self.old.calls }
        ensures rest { (self.new.shape ≡ self.old.shape) × (self.new.words ≡ self.old.words) × (self.new.history ≡ self.old.history) × (self.new.copies ≡ self.old.copies) × (self.new.enqueues ≡ self.old.enqueues) }
    {
        let now = self.history.len();
        let call = &mut self.calls[caller as usize];
        call.go(&self.shape, caller, found, now);
    }

    /// The next step of the caller, and its kind.
    pub fn step(&mut self, caller: u32) -> StepKind
        requires sound { IsSound self.old }
        requires known { caller < self.old.shape.callers }
        requires runs { ((state_of self.old).callers caller).point ≢ Idle }
        ensures step { state_of self.new ≡ next (lane_sizes self.old.shape) (state_of self.old) caller }
        ensures kind { kind_of ((state_of self.old).callers caller).point ≡ Some result }
        ensures sound { IsSound self.new }
        ensures shape { self.new.shape ≡ self.old.shape }
        ensures enqueues_stay { self.new.enqueues ≡ self.old.enqueues }
    {
        let point = self.point(caller);
        let act = point.act(caller);
        let word = act.location();
        let found = self.words.read(word);
        self.words.write(word, act.effect(found));
        self.add_group(caller, point, found);
        self.go(caller, found);
        point.running_kind()
    }
}
