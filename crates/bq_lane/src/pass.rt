// A pass of a lane: the seat of its callers, and of a single caller its number and what it made.
ghost use Rattle.std.specs.Prelude.{◌≡◌, ◌<◌, ◌≤◌, ℕ, [], ◌++◌, length, Contains, IfOk};
ghost use Rattle.word_rows.specs.Sizes.{words_of};
ghost use Rattle.bq_model.specs.History.{operations};
ghost use Rattle.bq_model.specs.Own.{mine};
ghost use Rattle.bq_model.specs.NoShut.{NeverShut};
ghost use Rattle.bq_model.specs.Proper.{IsProper};
ghost use Rattle.bq_model.specs.Grows.{the_caller, SawMore};
ghost use Rattle.bq_lane.specs.Made.{first_view};
ghost use Rattle.bq_lane.specs.Pass.{new_pass};

use bq_model::{Answers, OutOfMemory, Shape};
use lane_course::Scratch;
use lane_rule::{Token, Words, gather};
use std::alloc::Global;
use std::marker::Model;

/// The seat of one caller or several between their calls. Of a single caller it has what the next call begins with, and
/// all the memory that it needs.
#[derive(Drop)]
pub struct Seated {
    pub(crate) token: Token,
    pub(crate) shape: Shape,
    pub(crate) caller: u32,
    /// How many groups the caller made.
    pub(crate) batches: u64,
    /// How many operations these have.
    pub(crate) operated: u64,
    /// What a command has at hand.
    pub(crate) scratch: Scratch,
}

impl Model for Seated {
    ghost use Rattle.bq_lane.specs.Pass.{PassState, Rests, callers_of};

    ghost Value = { PassState };

    ghost view = { λ p. record { table = p.token.table_id; shape = p.shape; callers = callers_of p.token.me.0; seen = p.token.me.0.seen } };

    ghost invariant = { λ p. Rests p.token.me p.shape p.caller p.batches p.operated p.scratch };
}

impl Seated {
    /// The seat of a new caller.
    pub(crate) fn new(
        alloc: Global,
        token: Token,
        shape: &Shape,
        caller: u32,
    ) -> Result<Seated, OutOfMemory>
        requires newcomer { token.me ≡ (first_view shape.now caller, []) }
        requires known { caller < shape.now.callers }
        ensures { IfOk result (λ seated. seated ≡ new_pass token.table_id shape.now caller) }
    {
        Ok(Seated {
            scratch: Scratch::new(alloc, shape)?,
            token,
            shape: *shape,
            caller,
            batches: 0,
            operated: 0,
        })
    }

    /// Its caller, where it is one.
    pub(crate) fn caller(&self) -> u32
        requires { length self.now.callers ≡ 1 }
        ensures caller { result ≡ the_caller self.now.callers }
        ensures known { result < self.now.shape.callers }
    {
        self.caller
    }

    /// How many operations its caller has made, where it is one.
    pub(crate) fn made(&self) -> u64
        requires { length self.now.callers ≡ 1 }
        ensures made { result ≡ length (operations (mine self.now.seen (the_caller self.now.callers))) }
        ensures within_allowance { result ≤ self.now.shape.allowance }
    {
        self.operated
    }

    /// The seat of the callers of two, which have seen all of the history.
    pub(crate) fn gather(self, words: &Words, other: Seated) -> Seated
        requires size { words.now.table_id.words ≡ words_of words.now.key }
        requires first { (self.table ≡ words.now.table_id) × (self.shape ≡ words.now.key) }
        requires second { (other.table ≡ words.now.table_id) × (other.shape ≡ words.now.key) }
        ensures of_the_same { (result.table ≡ self.table) × (result.shape ≡ self.shape) }
        ensures of_both { result.callers ≡ self.callers ++ other.callers }
        ensures goes_on_the_first { (c : ℕ) → Contains self.callers c → SawMore c self.seen result.seen }
        ensures goes_on_the_second { (c : ℕ) → Contains other.callers c → SawMore c other.seen result.seen }
        ensures proper { IsProper result.shape.callers result.seen }
        ensures never_shut { NeverShut result.seen }
    {
        let Seated {
            token,
            shape,
            caller,
            batches,
            operated,
            scratch,
        } = self;
        let Seated {
            token: joined,
            shape: _,
            caller: _,
            batches: _,
            operated: _,
            scratch: _,
        } = other;
        Seated {
            token: gather(words, token, joined),
            shape,
            caller,
            batches,
            operated,
            scratch,
        }
    }

    /// What its callers have seen has no Shut.
    pub(crate) fn is_never_shut(&self)
        ensures { NeverShut self.now.seen }
    {
        let _ = &self.token;
    }
}

/// What one caller or several keep of a `BqLane` between their calls.
#[derive(Drop)]
pub struct Pass {
    pub(crate) seated: Seated,
    // The answer of a plain call.
    pub(crate) answer: Answers,
}

impl Model for Pass {
    ghost use Rattle.std.specs.Prelude.{◌≡◌};
    ghost use Rattle.bq_lane.specs.Pass.{PassState};

    ghost Value = { PassState };

    ghost view = { λ p. p.seated };

    ghost invariant = { λ p. p.answer.capacity ≡ 1 };
}

impl Pass {
    /// The pass of a new caller.
    pub(crate) fn new(
        alloc: Global,
        token: Token,
        shape: &Shape,
        caller: u32,
    ) -> Result<Pass, OutOfMemory>
        requires newcomer { token.me ≡ (first_view shape.now caller, []) }
        requires known { caller < shape.now.callers }
        ensures { IfOk result (λ pass. pass ≡ new_pass token.table_id shape.now caller) }
    {
        Ok(Pass {
            seated: Seated::new(alloc, token, shape, caller)?,
            answer: Answers::new(alloc, 1)?,
        })
    }
}

/// The whole history of a `BqLane` that was closed: the pass that had seen it.
#[derive(Drop)]
pub struct Book {
    _pass: Pass,
}

impl Model for Book {
    ghost use Rattle.std.specs.Prelude.{List};
    ghost use Rattle.bq_model.specs.declared.group.Group.{Group};

    ghost Value = { List Group };

    ghost view = { λ b. b._pass.seen };
}

impl Book {
    /// The book that keeps this pass.
    pub(crate) fn new(pass: Pass) -> Book
        ensures { result ≡ pass.seen }
    {
        Book { _pass: pass }
    }
}
