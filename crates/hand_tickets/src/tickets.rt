// The rounds of a hand with one session: what it defers is made as one group, or withdrawn.
ghost use Rattle.std.specs.Prelude.{◌≡◌, ◌≢◌, ◌+◌, ◌≤◌, ◌<◌, ◌^◌, ℕ, [], ◌∷◌, ◌++◌, length, map, replicate, IfOk, OnOk, IfErr, OnErr, IsErrOf, IfSome, OnSome, IfNone};
ghost use Rattle.std.specs.List.{range_with_len};
ghost use Rattle.std.specs.VecDeque.{deque_len, deque_capacity};
ghost use Rattle.bq_model.specs.Values.{enqueued};
ghost use Rattle.bq_model.specs.Rooms.{PassesAllowance, PassesRoom};
ghost use Rattle.bq_model.specs.Grows.{SawMore, AtSomePoint};
ghost use Rattle.bq_session.specs.Session.{GivesBack};
ghost use Rattle.bq_session.specs.Outcome.{made_by};
ghost use Rattle.bq_session.specs.Futures.{IsIssued, live_count};
ghost use Rattle.hand_tickets.specs.Holds.{Holds, HoldsPending, IsMadeOfAll, some_withdrawn, all_pending};

use bq_model::{Lane, Op};
use bq_session::{EvalFault, Outcome, PlainFault, Refused, Session, Ticket};
use std::collections::VecDeque;

// Defers an operation for which there is room.
fn deferred<L: Lane>(session: &mut Session<L>, op: Op) -> Ticket
    requires place { length session.old.pending < session.old.futures.batch }
    requires ticket { live_count session.old.futures < session.old.futures.tickets }
    requires no_shut { op ≢ Op.Shut }
    ensures pending { session.new.pending ≡ session.old.pending ++ op ∷ [] }
    ensures issued { IsIssued result session.old.futures session.new.futures }
    ensures pass_stays { session.new.pass ≡ session.old.pass }
{
    match op {
        Op::Enq(v) => match session.future_enqueue(v) {
            Ok(ticket) => ticket,
            Err(Refused::BatchFull) => unreachable!(),
            Err(Refused::TicketsFull) => unreachable!(),
        },
        Op::Deq => match session.future_dequeue() {
            Ok(ticket) => ticket,
            Err(Refused::BatchFull) => unreachable!(),
            Err(Refused::TicketsFull) => unreachable!(),
        },
        Op::Shut => unreachable!(),
    }
}

// Defers an operation and keeps its ticket behind the others.
fn defer<L: Lane>(session: &mut Session<L>, op: Op, held: &mut VecDeque<Ticket>)
    requires holds { HoldsPending session.old.futures.lane session.old.futures.caller session.old.pending held.old.items session.old }
    requires room { (length session.old.pending < 256) × (256 ≤ deque_capacity held.old) }
    requires no_shut { op ≢ Op.Shut }
    ensures holds { HoldsPending session.old.futures.lane session.old.futures.caller (session.old.pending ++ op ∷ []) held.new.items session.new }
    ensures pass_stays { session.new.pass ≡ session.old.pass }
    ensures capacity_stays { deque_capacity held.new ≡ deque_capacity held.old }
{
    let ticket = deferred(session, op);
    held.push_back_reserved(ticket);
}

/// Defers so many dequeues.
pub fn defer_dequeues<L: Lane>(session: &mut Session<L>, count: u32, held: &mut VecDeque<Ticket>)
    requires holds { HoldsPending session.old.futures.lane session.old.futures.caller session.old.pending held.old.items session.old }
    requires room { (length session.old.pending + count ≤ 256) × (256 ≤ deque_capacity held.old) }
    ensures holds { HoldsPending session.old.futures.lane session.old.futures.caller (session.old.pending ++ replicate count Op.Deq) held.new.items session.new }
    ensures pass_stays { session.new.pass ≡ session.old.pass }
    ensures capacity_stays { deque_capacity held.new ≡ deque_capacity held.old }
{
    for _ in 0..count {
        defer(session, Op::Deq, held);
    }
}

/// Defers enqueues of so many numbers, of which the first is `first`.
pub fn defer_jobs<L: Lane>(
    session: &mut Session<L>,
    first: u32,
    count: u32,
    held: &mut VecDeque<Ticket>,
)
    requires holds { HoldsPending session.old.futures.lane session.old.futures.caller session.old.pending held.old.items session.old }
    requires room { (length session.old.pending + count ≤ 256) × (256 ≤ deque_capacity held.old) }
    requires numbers { first + count < 2 ^ 32 }
    ensures holds { HoldsPending session.old.futures.lane session.old.futures.caller (session.old.pending ++ map Op.Enq (range_with_len first count)) held.new.items session.new }
    ensures pass_stays { session.new.pass ≡ session.old.pass }
    ensures capacity_stays { deque_capacity held.new ≡ deque_capacity held.old }
{
    for place in 0..count {
        defer(session, Op::Enq(u64::from(first + place)), held);
    }
}

/// Makes all that is pending, by evaluating its first ticket. Where the lane refuses, the ticket comes back.
pub fn make_all<L: Lane>(
    lane: &L,
    session: &mut Session<L>,
    ticket: Ticket,
    held: &VecDeque<Ticket>,
) -> Result<Outcome, EvalFault>
    requires of_this_lane { (L.pass_identity session.old.pass ≡ L.identity lane.now) × (L.pass_shape session.old.pass ≡ L.lane_shape lane.now) }
    requires holds { HoldsPending session.old.futures.lane session.old.futures.caller session.old.pending (ticket ∷ held.now.items) session.old }
    ensures made { IfOk result (λ outcome. IsMadeOfAll session.old.futures.lane session.old.futures.caller session.old.pending held.now.items outcome (L.seen session.old.pass) (L.seen session.new.pass) session.new) }
    ensures within_allowance { OnOk result (made_by (L.seen session.old.pass) session.old.futures.caller + length session.old.pending ≤ (L.lane_shape lane.now).allowance) }
    ensures ticket { IfErr result (λ fault. GivesBack fault ticket × (fault ≢ EvalFault.Withdrawn)) }
    ensures saw_more { OnErr result (SawMore session.old.futures.caller (L.seen session.old.pass) (L.seen session.new.pass)) }
    ensures all_stays { OnErr result (session.new ≡ record session.old { pass = session.new.pass }) }
    ensures spent { IsErrOf result (EvalFault.Spent ticket) → PassesAllowance (L.lane_shape lane.now) (L.seen session.old.pass) session.old.futures.caller session.old.pending }
    ensures full { IsErrOf result (EvalFault.Full ticket)
        → (0 < length (enqueued session.old.pending)) × AtSomePoint (λ point. PassesRoom (L.lane_shape lane.now) point session.old.futures.caller session.old.pending) (L.seen session.old.pass) (L.seen session.new.pass) }
    ensures pass_stays { (L.pass_identity session.new.pass ≡ L.pass_identity session.old.pass) × (L.pass_shape session.new.pass ≡ L.pass_shape session.old.pass) × (L.callers session.new.pass ≡ L.callers session.old.pass) }
{
    session.evaluate(lane, ticket)
}

/// Withdraws all that is pending.
pub fn withdraw_all<L: Lane>(session: &mut Session<L>, held: &VecDeque<Ticket>)
    requires holds { HoldsPending session.old.futures.lane session.old.futures.caller session.old.pending held.now.items session.old }
    ensures holds { Holds session.old.futures.lane session.old.futures.caller [] (some_withdrawn 0 (length session.old.pending)) held.now.items session.new }
    ensures pass_stays { session.new.pass ≡ session.old.pass }
{
    while let Some(_) = session.withdraw_last() {}
}

/// Spends the tickets of operations that were withdrawn.
pub fn spend_all<L: Lane>(lane: &L, session: &mut Session<L>, held: &mut VecDeque<Ticket>)
    requires of_this_lane { (L.pass_identity session.old.pass ≡ L.identity lane.now) × (L.pass_shape session.old.pass ≡ L.lane_shape lane.now) }
    requires holds { Holds session.old.futures.lane session.old.futures.caller [] (some_withdrawn 0 (length held.old.items)) held.old.items session.old }
    ensures holds { Holds session.old.futures.lane session.old.futures.caller [] [] [] session.new }
    ensures none { held.new.items ≡ [] }
    ensures pass_stays { session.new.pass ≡ session.old.pass }
    ensures capacity_stays { deque_capacity held.new ≡ deque_capacity held.old }
{
    while let Some(ticket) = held.pop_front() {
        let _ = session.evaluate(lane, ticket);
    }
}

/// Makes a dequeue where nothing is deferred. Where the allowance is spent there is no outcome.
pub fn dequeue_once<L: Lane>(lane: &L, session: &mut Session<L>) -> Option<Outcome>
    requires of_this_lane { (L.pass_identity session.old.pass ≡ L.identity lane.now) × (L.pass_shape session.old.pass ≡ L.lane_shape lane.now) }
    requires holds { Holds session.old.futures.lane session.old.futures.caller [] [] [] session.old }
    ensures made { IfSome result (λ outcome. IsMadeOfAll session.old.futures.lane session.old.futures.caller (Op.Deq ∷ []) [] outcome (L.seen session.old.pass) (L.seen session.new.pass) session.new) }
    ensures within_allowance { OnSome result (made_by (L.seen session.old.pass) session.old.futures.caller + 1 ≤ (L.lane_shape lane.now).allowance) }
    ensures saw_more { IfNone result (SawMore session.old.futures.caller (L.seen session.old.pass) (L.seen session.new.pass)) }
    ensures all_stays { IfNone result (session.new ≡ record session.old { pass = session.new.pass }) }
    ensures spent { IfNone result (PassesAllowance (L.lane_shape lane.now) (L.seen session.old.pass) session.old.futures.caller (Op.Deq ∷ [])) }
    ensures pass_stays { (L.pass_identity session.new.pass ≡ L.pass_identity session.old.pass) × (L.pass_shape session.new.pass ≡ L.pass_shape session.old.pass) × (L.callers session.new.pass ≡ L.callers session.old.pass) }
{
    match session.dequeue(lane) {
        Ok(outcome) => Some(outcome),
        Err(PlainFault::Spent) => None,
        Err(PlainFault::Full) => unreachable!(),
        Err(PlainFault::BatchFull) => unreachable!(),
    }
}
