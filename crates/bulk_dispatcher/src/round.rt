// One round of a hand on one lane: what it deferred is made, and what it got is answered.
ghost use Rattle.std.specs.Prelude.{◌≡◌, ◌+◌, ◌<◌, ◌≤◌, ◌++◌, ◌∷◌, [], ℕ, List, length, true, false, IfOk, OnOk, MatchOption};
ghost use Rattle.std.specs.VecDeque.{deque_capacity};
ghost use Rattle.bq_model.specs.declared.op.Op.TheVariants.{Deq};
ghost use Rattle.bq_model.specs.declared.op.Answer.{Answer};
ghost use Rattle.bq_model.specs.Grows.{SawMore};
ghost use Rattle.bq_model.specs.Rooms.{PassesAllowance};
ghost use Rattle.bq_session.specs.Outcome.{made_by};
ghost use Rattle.hand_tickets.specs.Holds.{Holds, HoldsPending, all_kept};
ghost use Rattle.bulk_dispatcher.specs.Hands.{new_replies};
ghost use Rattle.bulk_dispatcher.specs.Rounds.{replies_to, found_nothing, ends_empty, RoundMade, RoundCame};

use crate::gate::Gate;
use crate::reply::Reply;
use bq_model::{Lane, OutOfMemory};
use bq_session::{Claim, EvalFault, Outcome, Session, Ticket};
use hand_tickets::{dequeue_once, make_all, spend_all, withdraw_all};
use job_text::JobFile;
use job_work::answer;
use std::alloc::Global;
use std::collections::VecDeque;

// Whether an operation found nothing.
fn is_empty(outcome: &Outcome) -> bool
    ensures { result ≡ found_nothing outcome.now }
{
    match outcome {
        Outcome::Done => false,
        Outcome::Got(_) => false,
        Outcome::Empty => true,
    }
}

// Runs the job that a claimed value names, if it names one, and spends the claim for the reply.
fn reply_to_job<G: Gate>(
    alloc: Global,
    jobs: &JobFile,
    claim: Claim,
    hand: u32,
    gate: &G,
    replies: &mut Vec<Reply>,
) -> Result<(), OutOfMemory>
    ensures { OnOk result (replies.new.items ≡ replies.old.items ++ replies_to jobs.now (Outcome.Got claim)) }
{
    if claim.value() >= u64::from(jobs.count()) {
        return Ok(());
    }
    let number = claim.value() as u32;
    match jobs.at(number) {
        Some((_, job)) => {
            gate.pass(hand, number);
            let text = answer(alloc, job)?;
            replies.push(Reply::new(claim, number, text))?;
            Ok(())
        }
        None => Ok(()),
    }
}

// Replies to what an operation came to.
fn reply_to<G: Gate>(
    alloc: Global,
    jobs: &JobFile,
    outcome: Outcome,
    hand: u32,
    gate: &G,
    replies: &mut Vec<Reply>,
) -> Result<(), OutOfMemory>
    ensures { OnOk result (replies.new.items ≡ replies.old.items ++ replies_to jobs.now outcome) }
{
    match outcome {
        Outcome::Got(claim) => reply_to_job(alloc, jobs, claim, hand, gate, replies),
        Outcome::Done => Ok(()),
        Outcome::Empty => Ok(()),
    }
}

// Answers what the tickets have kept, in their order, and tells whether the last operation found nothing.
fn answer_kept<L: Lane, G: Gate>(
    alloc: Global,
    jobs: &JobFile,
    lane: &L,
    session: &mut Session<L>,
    held: &mut VecDeque<Ticket>,
    empty: bool,
    hand: u32,
    gate: &G,
    replies: &mut Vec<Reply>,
) -> Result<bool, OutOfMemory>
    requires of_this_lane { (L.pass_identity session.old.pass ≡ L.identity lane.now) × (L.pass_shape session.old.pass ≡ L.lane_shape lane.now) }
    requires kept { (first : ℕ) × (answers : List Answer) × Holds session.old.futures.lane session.old.futures.caller [] (all_kept first answers) held.old.items session.old }
    ensures answered { (first : ℕ) (answers : List Answer) → Holds session.old.futures.lane session.old.futures.caller [] (all_kept first answers) held.old.items session.old
        → OnOk result (replies.new.items ≡ replies.old.items ++ new_replies jobs.now session.old.futures.lane session.old.futures.caller first answers) }
    ensures ended { (first : ℕ) (answers : List Answer) → Holds session.old.futures.lane session.old.futures.caller [] (all_kept first answers) held.old.items session.old
        → IfOk result (λ last. last ≡ ends_empty empty answers) }
    ensures holds { OnOk result (Holds session.old.futures.lane session.old.futures.caller [] [] [] session.new) }
    ensures none { OnOk result (held.new.items ≡ []) }
    ensures capacity_stays { deque_capacity held.new ≡ deque_capacity held.old }
    ensures pass_stays { session.new.pass ≡ session.old.pass }
{
    let mut last = empty;
    while let Some(ticket) = held.pop_front() {
        match session.evaluate(lane, ticket) {
            Ok(outcome) => {
                last = is_empty(&outcome);
                reply_to(alloc, jobs, outcome, hand, gate, replies)?;
            }
            Err(_) => unreachable!(),
        }
    }
    Ok(last)
}

/// What a round came to.
#[derive(Clone, Copy, Debug)]
pub enum Round {
    /// All was made. Whether the last operation found nothing.
    Made { empty: bool },
    /// The room was full, and all is withdrawn.
    Full,
    /// The allowance was spent, and all is withdrawn.
    Spent,
}

// Withdraws all that is pending, of which this is the first ticket and the others are held, and spends the tickets.
fn withdraw_round<L: Lane>(
    lane: &L,
    session: &mut Session<L>,
    ticket: Ticket,
    held: &mut VecDeque<Ticket>,
) -> Result<(), OutOfMemory>
    requires of_this_lane { (L.pass_identity session.old.pass ≡ L.identity lane.now) × (L.pass_shape session.old.pass ≡ L.lane_shape lane.now) }
    requires holds { HoldsPending session.old.futures.lane session.old.futures.caller session.old.pending (ticket ∷ held.old.items) session.old }
    ensures holds { OnOk result (Holds session.old.futures.lane session.old.futures.caller [] [] [] session.new) }
    ensures none { OnOk result (held.new.items ≡ []) }
    ensures capacity { OnOk result (deque_capacity held.old ≤ deque_capacity held.new) }
    ensures pass_stays { session.new.pass ≡ session.old.pass }
{
    held.push_front(ticket)?;
    withdraw_all(session, held);
    spend_all(lane, session, held);
    Ok(())
}

/// Makes what is pending, and answers what it got. Where the lane refuses, all is withdrawn.
pub fn make_round<L: Lane, G: Gate>(
    alloc: Global,
    jobs: &JobFile,
    lane: &L,
    session: &mut Session<L>,
    held: &mut VecDeque<Ticket>,
    hand: u32,
    gate: &G,
    replies: &mut Vec<Reply>,
) -> Result<Round, OutOfMemory>
    requires of_this_lane { (L.pass_identity session.old.pass ≡ L.identity lane.now) × (L.pass_shape session.old.pass ≡ L.lane_shape lane.now) }
    requires some { 0 < length held.old.items }
    requires holds { HoldsPending session.old.futures.lane session.old.futures.caller session.old.pending held.old.items session.old }
    ensures came { IfOk result (λ round. RoundCame (L.lane_shape lane.now) jobs.now session.old.futures.lane session.old.futures.caller session.old.pending (L.seen session.old.pass) (L.seen session.new.pass) replies.old.items replies.new.items round) }
    ensures holds { OnOk result (Holds session.old.futures.lane session.old.futures.caller [] [] [] session.new) }
    ensures none { OnOk result (held.new.items ≡ []) }
    ensures capacity { OnOk result (deque_capacity held.old ≤ deque_capacity held.new) }
    ensures pass_stays { (L.pass_identity session.new.pass ≡ L.pass_identity session.old.pass) × (L.pass_shape session.new.pass ≡ L.pass_shape session.old.pass) × (L.callers session.new.pass ≡ L.callers session.old.pass) }
{
    let Some(ticket) = held.pop_front() else {
        unreachable!()
    };
    match make_all(lane, session, ticket, held) {
        Ok(outcome) => {
            let empty = is_empty(&outcome);
            reply_to(alloc, jobs, outcome, hand, gate, replies)?;
            let last = answer_kept(alloc, jobs, lane, session, held, empty, hand, gate, replies)?;
            Ok(Round::Made { empty: last })
        }
        Err(EvalFault::Full(same)) => {
            withdraw_round(lane, session, same, held)?;
            Ok(Round::Full)
        }
        Err(EvalFault::Spent(same)) => {
            withdraw_round(lane, session, same, held)?;
            Ok(Round::Spent)
        }
        Err(EvalFault::Withdrawn) => unreachable!(),
    }
}

/// Makes one dequeue, and answers what it got. The answer is whether it found nothing, and None where the allowance was
/// spent.
pub fn dequeue_round<L: Lane, G: Gate>(
    alloc: Global,
    jobs: &JobFile,
    lane: &L,
    session: &mut Session<L>,
    hand: u32,
    gate: &G,
    replies: &mut Vec<Reply>,
) -> Result<Option<bool>, OutOfMemory>
    requires of_this_lane { (L.pass_identity session.old.pass ≡ L.identity lane.now) × (L.pass_shape session.old.pass ≡ L.lane_shape lane.now) }
    requires holds { Holds session.old.futures.lane session.old.futures.caller [] [] [] session.old }
    ensures made { IfOk result (λ made. MatchOption made
        (SawMore session.old.futures.caller (L.seen session.old.pass) (L.seen session.new.pass) × (replies.new.items ≡ replies.old.items)
        × PassesAllowance (L.lane_shape lane.now) (L.seen session.old.pass) session.old.futures.caller (Deq ∷ []))
        (λ empty. RoundMade jobs.now session.old.futures.lane session.old.futures.caller (Deq ∷ []) (L.seen session.old.pass) (L.seen session.new.pass) replies.old.items replies.new.items empty
        × (made_by (L.seen session.old.pass) session.old.futures.caller + 1 ≤ (L.lane_shape lane.now).allowance))) }
    ensures holds { OnOk result (Holds session.old.futures.lane session.old.futures.caller [] [] [] session.new) }
    ensures pass_stays { (L.pass_identity session.new.pass ≡ L.pass_identity session.old.pass) × (L.pass_shape session.new.pass ≡ L.pass_shape session.old.pass) × (L.callers session.new.pass ≡ L.callers session.old.pass) }
{
    match dequeue_once(lane, session) {
        Some(outcome) => {
            let empty = is_empty(&outcome);
            reply_to(alloc, jobs, outcome, hand, gate, replies)?;
            Ok(Some(empty))
        }
        None => Ok(None),
    }
}
