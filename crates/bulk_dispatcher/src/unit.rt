// A unit of a file goes to its lane.
ghost use Rattle.std.specs.Prelude.{◌≡◌, ◌+◌, ◌≤◌, ◌^◌, ◌<◌, [], ◌∷◌, length, OnOk, IfOk};
ghost use Rattle.std.specs.List.{range_with_len};
ghost use Rattle.std.specs.VecDeque.{deque_capacity};
ghost use Rattle.job_text.specs.JobFile.{job_count};
ghost use Rattle.job_lanes.specs.Seats.{seat};
ghost use Rattle.job_lanes.specs.Rest.{IsAtRest};
ghost use Rattle.hand_tickets.specs.Holds.{Holds, HoldsPending};
ghost use Rattle.bulk_dispatcher.specs.Hands.{PutsUnit, Answered};
ghost use Rattle.bulk_dispatcher.specs.Stops.{Serves, MetSpent, AtWork};
ghost use Rattle.bulk_dispatcher.specs.UnitOps.{unit_ops};

use crate::gate::Gate;
use crate::reply::Reply;
use crate::round::{Round, dequeue_round, make_round};
use crate::work::Work;
use bq_model::{Lane, OutOfMemory};
use bq_session::{Session, Ticket};
use hand_tickets::{defer_dequeues, defer_jobs};
use job_text::JobFile;
use std::alloc::Global;
use std::collections::VecDeque;

/// The most tickets of a session.
pub const MOST_TICKETS: usize = 256;

// Defers what a hand makes of a unit.
fn defer_unit<L: Lane>(
    session: &mut Session<L>,
    first: u32,
    count: u32,
    held: &mut VecDeque<Ticket>,
)
    requires holds { Holds session.old.futures.lane session.old.futures.caller [] [] [] session.old }
    requires none { held.old.items ≡ [] }
    requires capacity { 256 ≤ deque_capacity held.old }
    requires unit { count ≤ 100 }
    requires numbers { first + count < 2 ^ 32 }
    ensures holds { HoldsPending session.old.futures.lane session.old.futures.caller (unit_ops (range_with_len first count)) held.new.items session.new }
    ensures pass_stays { session.new.pass ≡ session.old.pass }
    ensures capacity_stays { deque_capacity held.new ≡ deque_capacity held.old }
{
    defer_dequeues(session, 1, held);
    defer_jobs(session, first, count, held);
    defer_dequeues(session, count / 2, held);
}

/// Puts the jobs of a unit, which have `count` numbers from `first` on, on a lane, and replies to what it gets there.
/// Where the lane is full it makes a dequeue and tries again, which ends since after an Empty nothing queued is its own.
pub fn put_unit<L: Lane, G: Gate>(
    alloc: Global,
    jobs: &JobFile,
    lane: &L,
    session: &mut Session<L>,
    first: u32,
    count: u32,
    hand: u32,
    gate: &G,
    replies: &mut Vec<Reply>,
) -> Result<Work, OutOfMemory>
    requires of_this_lane { seat (L.pass_identity session.old.pass) (L.pass_shape session.old.pass) (L.callers session.old.pass) ≡ seat (L.identity lane.now) (L.lane_shape lane.now) (hand ∷ []) }
    requires serves { Serves (L.lane_shape lane.now) }
    requires at_rest { IsAtRest session.old.futures.lane hand session.old }
    requires unit { count ≤ 100 }
    requires file { first + count ≤ job_count jobs.now }
    requires numbers { first + count < 2 ^ 32 }
    ensures put { IfOk result (λ work. AtWork work (PutsUnit first count hand (L.seen session.old.pass) (L.seen session.new.pass)) (MetSpent hand (L.seen session.old.pass) (L.seen session.new.pass))) }
    ensures answered { OnOk result (Answered jobs.now session.old.futures.lane hand (L.seen session.old.pass) (L.seen session.new.pass) replies.old.items replies.new.items) }
    ensures seat_stays { OnOk result (seat (L.pass_identity session.new.pass) (L.pass_shape session.new.pass) (L.callers session.new.pass)
        ≡ seat (L.pass_identity session.old.pass) (L.pass_shape session.old.pass) (L.callers session.old.pass)) }
    ensures at_rest { OnOk result (IsAtRest session.old.futures.lane hand session.new) }
{
    let mut held = VecDeque::with_capacity(alloc, MOST_TICKETS)?;
    'tries: loop {
        defer_unit(session, first, count, &mut held);
        let came = make_round(alloc, jobs, lane, session, &mut held, hand, gate, replies)?;
        match came {
            Round::Made { .. } => return Ok(Work::Done),
            Round::Spent => return Ok(Work::Spent),
            Round::Full => {}
        }
        let found = dequeue_round(alloc, jobs, lane, session, hand, gate, replies)?;
        match found {
            Some(_) => {}
            None => return Ok(Work::Spent),
        }
    }
}
