// A hand that has put its units takes what is left on a lane.
ghost use Rattle.std.specs.Prelude.{◌≡◌, ◌+◌, ◌≤◌, [], ◌∷◌, replicate, IfOk, OnOk, MatchOption};
ghost use Rattle.std.specs.VecDeque.{deque_capacity};
ghost use Rattle.job_lanes.specs.Seats.{seat};
ghost use Rattle.job_lanes.specs.Rest.{IsAtRest};
ghost use Rattle.hand_tickets.specs.Holds.{Holds};
ghost use Rattle.bulk_dispatcher.specs.Hands.{EndsLane, Answered};
ghost use Rattle.bulk_dispatcher.specs.Rounds.{RoundMade};
ghost use Rattle.bulk_dispatcher.specs.Stops.{Serves, MetSpent, AtWork};
ghost use Rattle.bq_model.specs.declared.op.Op.TheVariants.{Deq};
ghost use Rattle.bq_model.specs.Grows.{SawMore};
ghost use Rattle.bq_model.specs.Rooms.{PassesAllowance};
ghost use Rattle.bq_session.specs.Outcome.{made_by};

use crate::gate::Gate;
use crate::reply::Reply;
use crate::round::{Round, make_round};
use crate::unit::MOST_TICKETS;
use crate::work::Work;
use bq_model::{Lane, OutOfMemory};
use bq_session::{Session, Ticket};
use hand_tickets::defer_dequeues;
use job_text::JobFile;
use std::alloc::Global;
use std::collections::VecDeque;

// Makes a batch of dequeues, and tells whether the last found nothing. The answer is None where the allowance was spent.
fn take_round<L: Lane, G: Gate>(
    alloc: Global,
    jobs: &JobFile,
    lane: &L,
    session: &mut Session<L>,
    held: &mut VecDeque<Ticket>,
    batch: u32,
    hand: u32,
    gate: &G,
    replies: &mut Vec<Reply>,
) -> Result<Option<bool>, OutOfMemory>
    requires of_this_lane { (L.pass_identity session.old.pass ≡ L.identity lane.now) × (L.pass_shape session.old.pass ≡ L.lane_shape lane.now) }
    requires holds { Holds session.old.futures.lane session.old.futures.caller [] [] [] session.old }
    requires none { held.old.items ≡ [] }
    requires capacity { 256 ≤ deque_capacity held.old }
    requires batch { (1 ≤ batch) × (batch ≤ 256) }
    ensures made { IfOk result (λ made. MatchOption made
        (SawMore session.old.futures.caller (L.seen session.old.pass) (L.seen session.new.pass) × (replies.new.items ≡ replies.old.items)
        × PassesAllowance (L.lane_shape lane.now) (L.seen session.old.pass) session.old.futures.caller (replicate batch Deq))
        (λ empty. RoundMade jobs.now session.old.futures.lane session.old.futures.caller (replicate batch Deq) (L.seen session.old.pass) (L.seen session.new.pass) replies.old.items replies.new.items empty
        × (made_by (L.seen session.old.pass) session.old.futures.caller + batch ≤ (L.lane_shape lane.now).allowance))) }
    ensures holds { OnOk result (Holds session.old.futures.lane session.old.futures.caller [] [] [] session.new) }
    ensures none { OnOk result (held.new.items ≡ []) }
    ensures capacity { OnOk result (256 ≤ deque_capacity held.new) }
    ensures pass_stays { OnOk result ((L.pass_identity session.new.pass ≡ L.pass_identity session.old.pass) × (L.pass_shape session.new.pass ≡ L.pass_shape session.old.pass) × (L.callers session.new.pass ≡ L.callers session.old.pass)) }
{
    defer_dequeues(session, batch, held);
    let came = make_round(alloc, jobs, lane, session, held, hand, gate, replies)?;
    match came {
        Round::Made { empty } => Ok(Some(empty)),
        Round::Spent => Ok(None),
        Round::Full => unreachable!(),
    }
}

/// Makes batches of dequeues on a lane until one of them finds nothing, and replies to what it gets.
pub fn drain<L: Lane, G: Gate>(
    alloc: Global,
    jobs: &JobFile,
    lane: &L,
    session: &mut Session<L>,
    batch: u32,
    hand: u32,
    gate: &G,
    replies: &mut Vec<Reply>,
) -> Result<Work, OutOfMemory>
    requires of_this_lane { seat (L.pass_identity session.old.pass) (L.pass_shape session.old.pass) (L.callers session.old.pass) ≡ seat (L.identity lane.now) (L.lane_shape lane.now) (hand ∷ []) }
    requires serves { Serves (L.lane_shape lane.now) }
    requires at_rest { IsAtRest session.old.futures.lane hand session.old }
    requires batch { (1 ≤ batch) × (batch ≤ 256) }
    ensures ends { IfOk result (λ work. AtWork work (EndsLane batch hand (L.seen session.old.pass) (L.seen session.new.pass)) (MetSpent hand (L.seen session.old.pass) (L.seen session.new.pass))) }
    ensures answered { OnOk result (Answered jobs.now session.old.futures.lane hand (L.seen session.old.pass) (L.seen session.new.pass) replies.old.items replies.new.items) }
    ensures seat_stays { OnOk result (seat (L.pass_identity session.new.pass) (L.pass_shape session.new.pass) (L.callers session.new.pass)
        ≡ seat (L.pass_identity session.old.pass) (L.pass_shape session.old.pass) (L.callers session.old.pass)) }
    ensures at_rest { OnOk result (IsAtRest session.old.futures.lane hand session.new) }
{
    let mut held = VecDeque::with_capacity(alloc, MOST_TICKETS)?;
    'rounds: loop {
        let found = take_round(
            alloc, jobs, lane, session, &mut held, batch, hand, gate, replies,
        )?;
        match found {
            Some(empty) => {
                if empty {
                    return Ok(Work::Done);
                }
            }
            None => return Ok(Work::Spent),
        }
    }
}
