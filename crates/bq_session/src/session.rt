// A session. As many futures wait as operations are pending, and what is kept is what the pass has seen.
ghost use Rattle.std.specs.Prelude.{◌≡◌, ◌≢◌, ◌↔◌, ◌+◌, ◌^◌, ◌<◌, ◌≤◌, ℕ, List, [], ◌∷◌, ◌++◌, length, IfOk, IsErrOf, OnOk, OnErr, IsErr, IfErr, IfSome, IsNone, OnSome, IfNone, IsTrue, Ok, All};
ghost use Rattle.bq_model.specs.declared.op.Op.{Op};
ghost use Rattle.bq_model.specs.declared.op.Answer.{Answer};
ghost use Rattle.bq_model.specs.NoShut.{NoShut};
ghost use Rattle.bq_model.specs.Own.{mine};
ghost use Rattle.bq_model.specs.Grows.{the_caller, Grew, SawMore, AtSomePoint};
ghost use Rattle.bq_model.specs.Rooms.{PassesAllowance, PassesRoom};
ghost use Rattle.bq_model.specs.Values.{enqueued};
ghost use Rattle.bq_session.specs.declared.future.Standing.TheVariants.{Pending, Kept, Withdrawn};

use crate::claim::{Claim, Outcome};
use crate::error::{EvalFault, PlainFault, Refused};
use crate::future::Standing;
use crate::futures::Futures;
use crate::ticket::Ticket;
use bq_model::{Answer, Answers, Batch, Lane, Op, OutOfMemory, Refusal};
use std::alloc::Global;
use std::marker::Model;

/// What one caller of a lane defers, to make it together. Each call returns, whatever the other callers do or leave undone.
#[derive(Drop)]
pub struct Session<L: Lane> {
    pass: L::Pass,
    pending: Batch,
    futures: Futures,
    answers: Answers,
}

impl<L: Lane> Model for Session<L> {
    ghost use Rattle.bq_session.specs.Session.{SessionState};
    ghost use Rattle.bq_session.specs.Whole.{IsWhole};

    ghost Value = { SessionState L.Pass };

    ghost view = { λ s. record { pass = s.pass; pending = s.pending.items; futures = s.futures } };

    ghost invariant = { λ s. IsWhole (L.callers s.pass) (L.pass_shape s.pass).batch (L.seen s.pass) s.pending s.answers s.futures };
}

impl<L: Lane> Session<L> {
    ghost use Rattle.bq_session.specs.Futures.{Stands, IsLive, IsPending, IsIssued, last_withdrawn, spent};
    ghost use Rattle.bq_session.specs.Session.{IsMade, IsMadeWith, GivesBack};
    ghost use Rattle.bq_session.specs.Outcome.{outcome_of, KeepsAnswers, ClaimsOwn};

    /// A session of the caller of a pass, with nothing deferred. `lane` is the number that its tickets and claims
    /// carry, `batch` the most operations that are pending, and `tickets` the most tickets that are live. It takes all
    /// memory that it ever needs.
    pub fn new(
        alloc: Global,
        lane: u32,
        pass: L::Pass,
        batch: u32,
        tickets: u32,
    ) -> Result<Session<L>, OutOfMemory>
        requires one_caller { length (L.callers pass) ≡ 1 }
        requires batch { (1 ≤ batch) × (batch ≤ (L.pass_shape pass).batch) }
        requires tickets { (1 ≤ tickets) × (tickets ≤ 256) }
        ensures pass { IfOk result (λ s. s.pass ≡ pass) }
        ensures nothing_pending { IfOk result (λ s. s.pending ≡ []) }
        ensures no_future { IfOk result (λ s. s.futures ≡ record { lane = lane; caller = the_caller (L.callers pass); batch = batch; tickets = tickets; made = 0; waiting = 0; live = [] }) }
    {
        let caller = L::caller(&pass);
        Ok(Session {
            pass,
            pending: Batch::new(alloc, batch)?,
            futures: Futures::new(alloc, lane, caller, batch, tickets)?,
            answers: Answers::new(alloc, batch)?,
        })
    }

    /// How many operations are pending.
    pub fn pending(&self) -> u32
        ensures pending { result ≡ length self.now.pending }
        ensures within_batch { result ≤ self.now.futures.batch }
    {
        self.pending.len()
    }

    /// How many tickets are live.
    pub fn live(&self) -> u32
        ensures live { result ≡ live_count self.now.futures }
        ensures within_tickets { result ≤ self.now.futures.tickets }
    {
        self.futures.live()
    }

    /// Whether the ticket is a live one of this session.
    pub fn owns(&self, ticket: &Ticket) -> bool
        ensures { IsTrue result ↔ IsLive self.now.futures ticket.now }
    {
        self.futures.standing(ticket).is_some()
    }

    /// Defers an enqueue.
    pub fn future_enqueue(&mut self, v: u64) -> Result<Ticket, Refused>
        ensures appended { OnOk result (self.new.pending ≡ self.old.pending ++ Op.Enq v ∷ []) }
        ensures issued { IfOk result (λ ticket. IsIssued ticket self.old.futures self.new.futures) }
        ensures batch_full { IsErrOf result Refused.BatchFull ↔ (length self.old.pending ≡ self.old.futures.batch) }
        ensures tickets_full { IsErrOf result Refused.TicketsFull ↔ ((length self.old.pending < self.old.futures.batch) × (live_count self.old.futures ≡ self.old.futures.tickets)) }
        ensures refusal_changes_nothing { OnErr result (self.new ≡ self.old) }
        ensures pass_stays { self.new.pass ≡ self.old.pass }
    {
        self.defer(Op::Enq(v))
    }

    /// Defers a dequeue.
    pub fn future_dequeue(&mut self) -> Result<Ticket, Refused>
        ensures appended { OnOk result (self.new.pending ≡ self.old.pending ++ Op.Deq ∷ []) }
        ensures issued { IfOk result (λ ticket. IsIssued ticket self.old.futures self.new.futures) }
        ensures batch_full { IsErrOf result Refused.BatchFull ↔ (length self.old.pending ≡ self.old.futures.batch) }
        ensures tickets_full { IsErrOf result Refused.TicketsFull ↔ ((length self.old.pending < self.old.futures.batch) × (live_count self.old.futures ≡ self.old.futures.tickets)) }
        ensures refusal_changes_nothing { OnErr result (self.new ≡ self.old) }
        ensures pass_stays { self.new.pass ≡ self.old.pass }
    {
        self.defer(Op::Deq)
    }

    fn defer(&mut self, op: Op) -> Result<Ticket, Refused>
        requires { op ≢ Op.Shut }
        ensures appended { OnOk result (self.new.pending ≡ self.old.pending ++ op ∷ []) }
        ensures issued { IfOk result (λ ticket. IsIssued ticket self.old.futures self.new.futures) }
        ensures batch_full { IsErrOf result Refused.BatchFull ↔ (length self.old.pending ≡ self.old.futures.batch) }
        ensures tickets_full { IsErrOf result Refused.TicketsFull ↔ ((length self.old.pending < self.old.futures.batch) × (live_count self.old.futures ≡ self.old.futures.tickets)) }
        ensures refusal_changes_nothing { OnErr result (self.new ≡ self.old) }
        ensures pass_stays { self.new.pass ≡ self.old.pass }
    {
        if self.pending.len() == self.futures.batch() {
            return Err(Refused::BatchFull);
        }
        if self.futures.is_full() {
            return Err(Refused::TicketsFull);
        }
        self.pending.push(op);
        Ok(self.futures.issue())
    }

    /// What came of a deferred operation. Where it is pending, all that is pending is made, as one group; where it was
    /// made already, its outcome was kept. Either spends the ticket.
    pub fn evaluate(&mut self, lane: &L, ticket: Ticket) -> Result<Outcome, EvalFault>
        requires of_this_lane { (L.pass_identity self.old.pass ≡ L.identity lane.now) × (L.pass_shape self.old.pass ≡ L.lane_shape lane.now) }
        requires owned { IsLive self.old.futures ticket }
        ensures makes_what_is_pending { (place : ℕ) → Stands self.old.futures ticket (Pending place) → IfOk result (λ outcome. IsMade ticket place outcome self.old.pending self.old.futures self.new.futures (L.seen self.old.pass) (L.seen self.new.pass)) }
        ensures nothing_pending { IsPending self.old.futures ticket → OnOk result (self.new.pending ≡ []) }
        ensures gives_what_is_kept { (answer : Answer) (serial : ℕ) → Stands self.old.futures ticket (Kept answer serial) → result ≡ Ok (outcome_of self.old.futures.lane self.old.futures.caller serial answer) }
        ensures withdrawn { IsErrOf result EvalFault.Withdrawn ↔ Stands self.old.futures ticket Withdrawn }
        ensures else_only_spends { ¬ IsPending self.old.futures ticket → self.new ≡ record self.old { futures = spent ticket.key self.old.futures } }
        ensures counted { OnOk result (live_count self.new.futures + 1 ≡ live_count self.old.futures) }
        ensures refused { IfErr result (λ fault. (fault ≢ EvalFault.Withdrawn) → SawMore self.old.futures.caller (L.seen self.old.pass) (L.seen self.new.pass) × (self.new ≡ record self.old { pass = self.new.pass })) }
        ensures ticket_comes_back { IfErr result (λ fault. GivesBack fault ticket) }
        ensures spent { IsErrOf result (EvalFault.Spent ticket) ↔ (IsPending self.old.futures ticket × PassesAllowance (L.lane_shape lane.now) (L.seen self.old.pass) self.old.futures.caller self.old.pending) }
        ensures full { IsErrOf result (EvalFault.Full ticket) → IsPending self.old.futures ticket × (0 < length (enqueued self.old.pending)) × AtSomePoint (λ point. PassesRoom (L.lane_shape lane.now) point self.old.futures.caller self.old.pending) (L.seen self.old.pass) (L.seen self.new.pass) }
        ensures claims { IfOk result (λ outcome. ClaimsOwn outcome (L.seen self.old.pass) self.old.futures (L.seen self.new.pass) self.new.futures) }
        ensures keeps { KeepsAnswers (L.seen self.new.pass) self.new.futures }
        ensures pass_stays { (L.pass_identity self.new.pass ≡ L.pass_identity self.old.pass) × (L.pass_shape self.new.pass ≡ L.pass_shape self.old.pass) × (L.callers self.new.pass ≡ L.callers self.old.pass) }
    {
        if self.is_pending(&ticket) {
            match self.make_pending(lane) {
                Ok(()) => {}
                Err(Refusal::Spent) => return Err(EvalFault::Spent(ticket)),
                Err(Refusal::Full) => return Err(EvalFault::Full(ticket)),
            }
        }
        self.take(ticket)
    }

    // Whether the future of the ticket is pending.
    fn is_pending(&self, ticket: &Ticket) -> bool
        ensures pending { IsTrue result ↔ IsPending self.now.futures ticket.now }
        ensures places { HavePlaces (length self.now.pending) self.now.futures.live }
        ensures keeps { KeepsAnswers (L.seen self.now.pass) self.now.futures }
    {
        self.futures.is_pending(ticket)
    }

    // Makes all that is pending, as one group.
    fn make_pending(&mut self, lane: &L) -> Result<(), Refusal>
        requires of_this_lane { (L.pass_identity self.old.pass ≡ L.identity lane.now) × (L.pass_shape self.old.pass ≡ L.lane_shape lane.now) }
        requires some_operation { self.old.pending ≢ [] }
        ensures ok { OnOk result (IsEvaluated self.old.pending self.old.futures self.new.futures (L.seen self.old.pass) (L.seen self.new.pass)) }
        ensures nothing_pending { OnOk result (self.new.pending ≡ []) }
        ensures counted { live_count self.new.futures ≡ live_count self.old.futures }
        ensures refused { OnErr result (SawMore self.old.futures.caller (L.seen self.old.pass) (L.seen self.new.pass)) }
        ensures all_stays_when_refused { OnErr result (self.new ≡ record self.old { pass = self.new.pass }) }
        ensures spent { IsErrOf result Refusal.Spent ↔ PassesAllowance (L.lane_shape lane.now) (L.seen self.old.pass) self.old.futures.caller self.old.pending }
        ensures full { IsErrOf result Refusal.Full → (0 < length (enqueued self.old.pending)) × AtSomePoint (λ point. PassesRoom (L.lane_shape lane.now) point self.old.futures.caller self.old.pending) (L.seen self.old.pass) (L.seen self.new.pass) }
        ensures keeps { KeepsAnswers (L.seen self.new.pass) self.new.futures }
        ensures pass_stays { (L.pass_identity self.new.pass ≡ L.pass_identity self.old.pass) × (L.pass_shape self.new.pass ≡ L.pass_shape self.old.pass) × (L.callers self.new.pass ≡ L.callers self.old.pass) }
    {
        make_group(
            lane,
            &mut self.pass,
            &self.pending,
            &mut self.answers,
            &mut self.futures,
        )?;
        self.pending.clear();
        Ok(())
    }

    // Spends a ticket whose operation is not pending.
    fn take(&mut self, ticket: Ticket) -> Result<Outcome, EvalFault>
        requires live { IsLive self.old.futures ticket }
        requires not_pending { ¬ IsPending self.old.futures ticket }
        ensures kept { (answer : Answer) (serial : ℕ) → Stands self.old.futures ticket (Kept answer serial) → result ≡ Ok (outcome_of self.old.futures.lane self.old.futures.caller serial answer) }
        ensures withdrawn { IsErrOf result EvalFault.Withdrawn ↔ Stands self.old.futures ticket Withdrawn }
        ensures no_other_fault { IfErr result (λ fault. fault ≡ EvalFault.Withdrawn) }
        ensures spends { self.new ≡ record self.old { futures = spent ticket.key self.old.futures } }
        ensures counted { live_count self.new.futures + 1 ≡ live_count self.old.futures }
        ensures claims { IfOk result (λ outcome. ClaimsOwn outcome (L.seen self.old.pass) self.old.futures (L.seen self.new.pass) self.new.futures) }
        ensures keeps { KeepsAnswers (L.seen self.new.pass) self.new.futures }
    {
        let lane = self.futures.lane();
        let caller = self.futures.caller();
        match self.futures.spend(ticket) {
            Standing::Kept(answer, serial) => Ok(Outcome::new(lane, caller, serial, answer)),
            Standing::Withdrawn => Err(EvalFault::Withdrawn),
            Standing::Pending(_) => unreachable!(),
        }
    }

    /// Makes all that is pending and then an enqueue, as one group.
    pub fn enqueue(&mut self, lane: &L, v: u64) -> Result<(), PlainFault>
        requires of_this_lane { (L.pass_identity self.old.pass ≡ L.identity lane.now) × (L.pass_shape self.old.pass ≡ L.lane_shape lane.now) }
        ensures ok { OnOk result (IsEvaluated (self.old.pending ++ Op.Enq v ∷ []) self.old.futures self.new.futures (L.seen self.old.pass) (L.seen self.new.pass)) }
        ensures nothing_pending { OnOk result (self.new.pending ≡ []) }
        ensures counted { live_count self.new.futures ≡ live_count self.old.futures }
        ensures refused { OnErr result (SawMore self.old.futures.caller (L.seen self.old.pass) (L.seen self.new.pass)) }
        ensures all_stays_when_refused { OnErr result (self.new ≡ record self.old { pass = self.new.pass }) }
        ensures batch_full { IsErrOf result PlainFault.BatchFull ↔ (length self.old.pending ≡ self.old.futures.batch) }
        ensures spent { IsErrOf result PlainFault.Spent
            ↔ ((length self.old.pending < self.old.futures.batch) × PassesAllowance (L.lane_shape lane.now) (L.seen self.old.pass) self.old.futures.caller (self.old.pending ++ Op.Enq v ∷ [])) }
        ensures full { IsErrOf result PlainFault.Full
            → (0 < length (enqueued (self.old.pending ++ Op.Enq v ∷ []))) × AtSomePoint (λ point. PassesRoom (L.lane_shape lane.now) point self.old.futures.caller (self.old.pending ++ Op.Enq v ∷ [])) (L.seen self.old.pass) (L.seen self.new.pass) }
        ensures keeps { KeepsAnswers (L.seen self.new.pass) self.new.futures }
        ensures pass_stays { (L.pass_identity self.new.pass ≡ L.pass_identity self.old.pass) × (L.pass_shape self.new.pass ≡ L.pass_shape self.old.pass) × (L.callers self.new.pass ≡ L.callers self.old.pass) }
    {
        self.make_with(lane, Op::Enq(v))?;
        Ok(())
    }

    /// Makes all that is pending and then a dequeue, as one group.
    pub fn dequeue(&mut self, lane: &L) -> Result<Outcome, PlainFault>
        requires of_this_lane { (L.pass_identity self.old.pass ≡ L.identity lane.now) × (L.pass_shape self.old.pass ≡ L.lane_shape lane.now) }
        ensures ok { IfOk result (λ outcome. IsMadeWith outcome Op.Deq self.old.pending self.old.futures self.new.futures (L.seen self.old.pass) (L.seen self.new.pass)) }
        ensures nothing_pending { OnOk result (self.new.pending ≡ []) }
        ensures counted { live_count self.new.futures ≡ live_count self.old.futures }
        ensures refused { OnErr result (SawMore self.old.futures.caller (L.seen self.old.pass) (L.seen self.new.pass)) }
        ensures all_stays_when_refused { OnErr result (self.new ≡ record self.old { pass = self.new.pass }) }
        ensures batch_full { IsErrOf result PlainFault.BatchFull ↔ (length self.old.pending ≡ self.old.futures.batch) }
        ensures spent { IsErrOf result PlainFault.Spent
            ↔ ((length self.old.pending < self.old.futures.batch) × PassesAllowance (L.lane_shape lane.now) (L.seen self.old.pass) self.old.futures.caller (self.old.pending ++ Op.Deq ∷ [])) }
        ensures full { IsErrOf result PlainFault.Full
            → (0 < length (enqueued (self.old.pending ++ Op.Deq ∷ []))) × AtSomePoint (λ point. PassesRoom (L.lane_shape lane.now) point self.old.futures.caller (self.old.pending ++ Op.Deq ∷ [])) (L.seen self.old.pass) (L.seen self.new.pass) }
        ensures claims { IfOk result (λ outcome. ClaimsOwn outcome (L.seen self.old.pass) self.old.futures (L.seen self.new.pass) self.new.futures) }
        ensures keeps { KeepsAnswers (L.seen self.new.pass) self.new.futures }
        ensures pass_stays { (L.pass_identity self.new.pass ≡ L.pass_identity self.old.pass) × (L.pass_shape self.new.pass ≡ L.pass_shape self.old.pass) × (L.callers self.new.pass ≡ L.callers self.old.pass) }
    {
        self.make_with(lane, Op::Deq)
    }

    // Makes all that is pending and then this operation, as one group.
    fn make_with(&mut self, lane: &L, op: Op) -> Result<Outcome, PlainFault>
        requires no_shut { op ≢ Op.Shut }
        requires of_this_lane { (L.pass_identity self.old.pass ≡ L.identity lane.now) × (L.pass_shape self.old.pass ≡ L.lane_shape lane.now) }
        ensures ok { IfOk result (λ outcome. IsMadeWith outcome op self.old.pending self.old.futures self.new.futures (L.seen self.old.pass) (L.seen self.new.pass)) }
        ensures nothing_pending { OnOk result (self.new.pending ≡ []) }
        ensures counted { live_count self.new.futures ≡ live_count self.old.futures }
        ensures refused { OnErr result (SawMore self.old.futures.caller (L.seen self.old.pass) (L.seen self.new.pass)) }
        ensures all_stays_when_refused { OnErr result (self.new ≡ record self.old { pass = self.new.pass }) }
        ensures batch_full { IsErrOf result PlainFault.BatchFull ↔ (length self.old.pending ≡ self.old.futures.batch) }
        ensures spent { IsErrOf result PlainFault.Spent
            ↔ ((length self.old.pending < self.old.futures.batch) × PassesAllowance (L.lane_shape lane.now) (L.seen self.old.pass) self.old.futures.caller (self.old.pending ++ op ∷ [])) }
        ensures full { IsErrOf result PlainFault.Full
            → (0 < length (enqueued (self.old.pending ++ op ∷ []))) × AtSomePoint (λ point. PassesRoom (L.lane_shape lane.now) point self.old.futures.caller (self.old.pending ++ op ∷ [])) (L.seen self.old.pass) (L.seen self.new.pass) }
        ensures claims { IfOk result (λ outcome. ClaimsOwn outcome (L.seen self.old.pass) self.old.futures (L.seen self.new.pass) self.new.futures) }
        ensures keeps { KeepsAnswers (L.seen self.new.pass) self.new.futures }
        ensures pass_stays { (L.pass_identity self.new.pass ≡ L.pass_identity self.old.pass) × (L.pass_shape self.new.pass ≡ L.pass_shape self.old.pass) × (L.callers self.new.pass ≡ L.callers self.old.pass) }
    {
        if self.pending.len() == self.futures.batch() {
            return Err(PlainFault::BatchFull);
        }
        self.pending.push(op);
        let made = make_group(
            lane,
            &mut self.pass,
            &self.pending,
            &mut self.answers,
            &mut self.futures,
        );
        match made {
            Ok(first) => {
                let place = self.pending.len() - 1;
                self.pending.clear();
                Ok(Outcome::new(
                    self.futures.lane(),
                    self.futures.caller(),
                    first + u64::from(place),
                    self.answers.get(place),
                ))
            }
            Err(refusal) => {
                self.pending.pop();
                Err(refusal.into())
            }
        }
    }

    /// Takes out the last pending operation. Its ticket is live and withdrawn.
    pub fn withdraw_last(&mut self) -> Option<Op>
        ensures none { IsNone result ↔ (self.old.pending ≡ []) }
        ensures last { IfSome result (λ op. self.old.pending ≡ self.new.pending ++ op ∷ []) }
        ensures withdrawn { OnSome result (self.new.futures ≡ last_withdrawn self.old.futures) }
        ensures counted { live_count self.new.futures ≡ live_count self.old.futures }
        ensures none_changes_nothing { IfNone result (self.new ≡ self.old) }
        ensures pass_stays { self.new.pass ≡ self.old.pass }
    {
        let op = self.pending.pop()?;
        self.futures.withdraw_last();
        Some(op)
    }

    /// Gives the pass back, or the session where something is pending. Kept results are let go.
    pub fn end(self) -> Result<L::Pass, Session<L>>
        ensures pending_is_kept { IsErr result ↔ (self.pending ≢ []) }
        ensures session { IfErr result (λ s. s ≡ self) }
        ensures pass { IfOk result (λ pass. pass ≡ self.pass) }
    {
        if !self.pending.is_empty() {
            return Err(self);
        }
        Ok(self.pass)
    }
}

ghost use Rattle.bq_session.specs.Futures.{live_count, HavePlaces, settled};
ghost use Rattle.bq_session.specs.Session.{IsEvaluated};
ghost use Rattle.bq_session.specs.Outcome.{made_by};

// Makes these operations as one group, the first of which belong to the pending futures. It gives the serial of the
// first of them.
fn make_group<L: Lane>(
    lane: &L,
    pass: &mut L::Pass,
    ops: &Batch,
    answers: &mut Answers,
    futures: &mut Futures,
) -> Result<u64, Refusal>
    requires of_this_lane { (L.pass_identity pass.old ≡ L.identity lane.now) × (L.pass_shape pass.old ≡ L.lane_shape lane.now) }
    requires one_caller { length (L.callers pass.old) ≡ 1 }
    requires of_this_caller { futures.old.caller ≡ the_caller (L.callers pass.old) }
    requires some_operation { ops.now.items ≢ [] }
    requires no_shut { NoShut ops.now.items }
    requires not_too_long { length ops.now.items ≤ (L.lane_shape lane.now).batch }
    requires room_for_answers { length ops.now.items ≤ answers.old.capacity }
    requires of_the_futures { futures.old.waiting ≤ length ops.now.items }
    ensures ok { OnOk result (Grew futures.old.caller ops.now.items answers.new.items (L.seen pass.old) (L.seen pass.new)) }
    ensures none_refused { OnOk result (All (λ answer. answer ≢ Answer.Refused) answers.new.items) }
    ensures first { IfOk result (λ first. first ≡ made_by (L.seen pass.old) futures.old.caller) }
    ensures settled { IfOk result (λ first. futures.new ≡ settled answers.new.items first futures.old) }
    ensures serials_fit { IfOk result (λ first. first + length ops.now.items < 2 ^ 64) }
    ensures places { OnOk result (HavePlaces futures.old.waiting futures.old.live) }
    ensures counted { live_count futures.new ≡ live_count futures.old }
    ensures refused { OnErr result (SawMore futures.old.caller (L.seen pass.old) (L.seen pass.new)) }
    ensures futures_stay_when_refused { OnErr result (futures.new ≡ futures.old) }
    ensures capacity_stays { answers.new.capacity ≡ answers.old.capacity }
    ensures spent { IsErrOf result Refusal.Spent ↔ PassesAllowance (L.lane_shape lane.now) (L.seen pass.old) futures.old.caller ops.now.items }
    ensures full { IsErrOf result Refusal.Full → (0 < length (enqueued ops.now.items)) × AtSomePoint (λ point. PassesRoom (L.lane_shape lane.now) point futures.old.caller ops.now.items) (L.seen pass.old) (L.seen pass.new) }
    ensures pass_stays { (L.pass_identity pass.new ≡ L.pass_identity pass.old) × (L.pass_shape pass.new ≡ L.pass_shape pass.old) × (L.callers pass.new ≡ L.callers pass.old) }
{
    let first = L::made(pass);
    lane.apply(pass, ops, answers)?;
    futures.settle(answers.as_slice(), first);
    Ok(first)
}
