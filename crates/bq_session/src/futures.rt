// The futures of a session. Those that are pending are found by the keys of their tickets, in the order of their places,
// and a ticket more never needs memory.
ghost use Rattle.std.specs.Prelude.{◌≡◌, ◌↔◌, ◌+◌, ◌^◌, ◌<◌, ◌≤◌, ℕ, [], length, IsTrue, IfOk, IfSome, IsSome, Some, slice_set, map, ◌≢◌};
ghost use Rattle.bq_model.specs.declared.op.Answer.{Answer};
ghost use Rattle.slab.specs.Slab.{ContainsKey, slab_len};

use crate::future::{Future, Standing};
use crate::ticket::Ticket;
use bq_model::{Answer, Bounded, OutOfMemory};
use slab::Slab;
use std::alloc::Global;
use std::marker::Model;

/// The futures of a session whose tickets are live.
#[derive(Drop)]
pub(crate) struct Futures {
    lane: u32,
    caller: u32,
    batch: u32,
    tickets: u32,
    made: u64,
    keys: Bounded<usize>,
    live: Slab<Future>,
}

impl Model for Futures {
    ghost use Rattle.std.specs.Prelude.{◌≡◌, ◌≤◌, length};
    ghost use Rattle.slab.specs.Slab.{slab_len};
    ghost use Rattle.bq_session.specs.Futures.{LiveFutures};
    ghost use Rattle.bq_session.specs.Keys.{ArePending};

    ghost Value = { LiveFutures };

    ghost view = { λ f. record {
      lane = f.lane;
      caller = f.caller;
      batch = f.batch;
      tickets = f.tickets;
      made = f.made;
      waiting = length f.keys.items;
      live = f.live.slots;
    } };

    ghost invariant = { λ f. ArePending f.keys.items f.live.slots × (f.keys.capacity ≡ f.batch) × (slab_len f.live ≤ f.tickets) × (f.tickets ≤ f.live.capacity) × (f.tickets ≤ 256) };
}

impl Futures {
    ghost use Rattle.bq_session.specs.Futures.{LiveFutures, live_count, Stands, IsLive, IsPending, IsIssued, settled, last_withdrawn, spent, HavePlaces};

    /// No future so far. It takes all memory that it ever needs.
    pub(crate) fn new(
        alloc: Global,
        lane: u32,
        caller: u32,
        batch: u32,
        tickets: u32,
    ) -> Result<Futures, OutOfMemory>
        requires { tickets ≤ 256 }
        ensures { IfOk result (λ f. f ≡ record { lane = lane; caller = caller; batch = batch; tickets = tickets; made = 0; waiting = 0; live = [] }) }
    {
        Ok(Futures {
            lane,
            caller,
            batch,
            tickets,
            made: 0,
            keys: Bounded::new(alloc, batch)?,
            live: Slab::with_capacity(alloc, tickets as usize)?,
        })
    }

    /// The number of the lane.
    pub(crate) fn lane(&self) -> u32
        ensures { result ≡ self.now.lane }
    {
        self.lane
    }

    /// Whose operations these are.
    pub(crate) fn caller(&self) -> u32
        ensures { result ≡ self.now.caller }
    {
        self.caller
    }

    /// The most that may be pending.
    pub(crate) fn batch(&self) -> u32
        ensures { result ≡ self.now.batch }
    {
        self.batch
    }

    /// How many tickets are live.
    pub(crate) fn live(&self) -> u32
        ensures live { result ≡ live_count self.now }
        ensures within_tickets { result ≤ self.now.tickets }
    {
        self.live.len() as u32
    }

    /// Whether as many tickets are live as may be.
    pub(crate) fn is_full(&self) -> bool
        ensures { IsTrue result ↔ (live_count self.now ≡ self.now.tickets) }
    {
        self.live() == self.tickets
    }

    /// A ticket for an operation that is put behind the pending ones.
    pub(crate) fn issue(&mut self) -> Ticket
        requires place { self.old.waiting < self.old.batch }
        requires ticket { live_count self.old ≢ self.old.tickets }
        ensures { IsIssued result self.old self.new }
    {
        let number = self.made;
        let key = self.live.insert_reserved(Future {
            number,
            standing: Standing::Pending(self.keys.len()),
        });
        self.keys.push(key);
        self.made = number.wrapping_add(1);
        Ticket {
            lane: self.lane,
            caller: self.caller,
            key,
            number,
        }
    }

    /// How the future of this ticket stands, if the ticket is live.
    pub(crate) fn standing(&self, ticket: &Ticket) -> Option<Standing>
        ensures live { IsSome result ↔ IsLive self.now ticket.now }
        ensures stands { IfSome result (λ standing. Stands self.now ticket.now standing) }
    {
        let future = self.live.get(ticket.key)?;
        if future.number == ticket.number
            && ticket.lane == self.lane
            && ticket.caller == self.caller
        {
            Some(future.standing)
        } else {
            None
        }
    }

    /// Whether the ticket is live, and its future is pending.
    pub(crate) fn is_pending(&self, ticket: &Ticket) -> bool
        ensures pending { IsTrue result ↔ IsPending self.now ticket.now }
        ensures places { HavePlaces self.now.waiting self.now.live }
    {
        if self.keys.is_empty() {
            return false;
        }
        match self.standing(ticket) {
            Some(Standing::Pending(_)) => true,
            Some(Standing::Kept(_, _)) | Some(Standing::Withdrawn) | None => false,
        }
    }

    /// Gives up a ticket whose future is not pending, and tells how that stood.
    pub(crate) fn spend(&mut self, ticket: Ticket) -> Standing
        requires live { IsLive self.old ticket }
        requires not_pending { ¬ IsPending self.old ticket }
        ensures stood { Stands self.old ticket result }
        ensures spent { self.new ≡ spent ticket.key self.old }
        ensures counted { live_count self.new + 1 ≡ live_count self.old }
    {
        self.live.remove(ticket.key).standing
    }

    /// Withdraws the last pending operation.
    pub(crate) fn withdraw_last(&mut self)
        requires { 0 < self.old.waiting }
        ensures withdrawn { self.new ≡ last_withdrawn self.old }
        ensures counted { live_count self.new ≡ live_count self.old }
    {
        if let Some(key) = self.keys.pop() {
            put_standing(&mut self.live, key, Standing::Withdrawn);
        }
    }

    /// Keeps the answers to all that is pending, the first one under serial `first`.
    pub(crate) fn settle(&mut self, answers: &[Answer], first: u64)
        requires enough { self.old.waiting ≤ length answers.now }
        requires serials_fit { first + length answers.now < 2 ^ 64 }
        ensures settled { self.new ≡ settled answers.now first self.old }
        ensures counted { live_count self.new ≡ live_count self.old }
        ensures places { HavePlaces self.old.waiting self.old.live }
    {
        keep_answers(&mut self.live, self.keys.as_slice(), answers, first);
        self.keys.clear();
    }
}

ghost use Rattle.bq_session.specs.Futures.{under, restand, keeping};
ghost use Rattle.bq_session.specs.Keys.{ArePending};

// Changes how the future with this key stands.
fn put_standing(live: &mut Slab<Future>, key: usize, standing: Standing)
    requires { ContainsKey live.old key }
    ensures stands { live.new.slots ≡ slice_set live.old.slots key (restand (λ _. standing) (under live.old.slots key)) }
    ensures counted { slab_len live.new ≡ slab_len live.old }
    ensures capacity { live.new.capacity ≡ live.old.capacity }
{
    live[key].standing = standing;
}

// Keeps each answer in the future whose key stands at its place.
fn keep_answers(live: &mut Slab<Future>, keys: &[usize], answers: &[Answer], first: u64)
    requires pending { ArePending keys.now live.old.slots }
    requires enough { length keys.now ≤ length answers.now }
    requires serials_fit { first + length answers.now < 2 ^ 64 }
    ensures kept { live.new.slots ≡ map (restand (keeping answers.now first)) live.old.slots }
    ensures counted { slab_len live.new ≡ slab_len live.old }
    ensures capacity { live.new.capacity ≡ live.old.capacity }
{
    for place in 0..keys.len() {
        put_standing(
            live,
            keys[place],
            Standing::Kept(answers[place], first + place as u64),
        );
    }
}
