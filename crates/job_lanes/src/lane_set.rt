// The lanes of a set. Each desk has a session on each of them, in their order, so a lane's passes are at the same place
// of each desk.
ghost use Rattle.std.specs.Prelude.{◌≡◌, ◌<◌, ◌≤◌, ◌+◌, ℕ, [], ◌∷◌, length, map, All, AllPairs, IfOk};
ghost use Rattle.std.specs.List.{range_with_len, AllZip};
ghost use Rattle.std.specs.Vec.{vec_len, vec_capacity};
ghost use Rattle.bq_model.specs.Grows.{SawMore};
ghost use Rattle.bq_model.specs.NoShut.{NeverShut};
ghost use Rattle.bq_model.specs.Proper.{IsProper};
ghost use Rattle.job_lanes.specs.Seats.{seat, IsForHands};
ghost use Rattle.job_lanes.specs.Rest.{IsAtRest};

use crate::desk::Desk;
use crate::seating::{close_last, seat_all};
use bq_model::{Lane, OutOfMemory, Shape};
use std::alloc::Global;

/// The most operations of a batch, and how many values of a caller may be queued on a lane.
const MOST: u32 = 256;
/// How many operations a caller may make on a lane.
const ALLOWANCE: u64 = 1 << 38;

/// The lanes of a job file, in the order of their numbers.
#[derive(Drop)]
pub struct LaneSet<L: Lane> {
    lanes: Vec<L>,
    // Holds no book before the set is closed, and has room for one of each lane.
    books: Vec<L::Book>,
    ghost no_book: { books.items ≡ [] },
    ghost room_for_books: { vec_len lanes ≤ vec_capacity books },
}

impl<L: Lane> LaneSet<L> {
    /// A lane for each of the numbers, and the desks of so many hands and of the program itself. It takes all memory
    /// that the lanes and the desks ever need.
    pub fn make(
        alloc: Global,
        numbers: &[u32],
        hands: u32,
    ) -> Result<(LaneSet<L>, Vec<Desk<L>>), OutOfMemory>
        requires numbers_rise { AllPairs (λ one other. one < other) numbers.now }
        requires are_lane_numbers { All (λ number. number ≤ 15) numbers.now }
        requires hands { (1 ≤ hands) × (hands ≤ 16) }
        ensures lanes { IfOk result (λ made. length made.0.lanes.items ≡ length numbers.now) }
        ensures shapes { IfOk result (λ made. All (λ lane. IsForHands hands (L.lane_shape lane)) made.0.lanes.items) }
        ensures desks { IfOk result (λ made. length made.1.items ≡ hands + 1) }

        // Desk c has a session on each lane, as its caller c.
        ensures seats { IfOk result (λ made. AllZip
            (λ c desk. map (λ s. seat (L.pass_identity s.pass) (L.pass_shape s.pass) (L.callers s.pass)) desk.sessions.items
            ≡ map (λ lane. seat (L.identity lane) (L.lane_shape lane) (c ∷ [])) made.0.lanes.items)
            (range_with_len 0 (hands + 1)) made.1.items) }
        ensures nothing_seen { IfOk result (λ made. All (λ desk. All (λ s. L.seen s.pass ≡ []) desk.sessions.items) made.1.items) }
        ensures at_rest { IfOk result (λ made. AllZip
            (λ c desk. AllZip (λ number s. IsAtRest number c s) numbers.now desk.sessions.items)
            (range_with_len 0 (hands + 1)) made.1.items) }
    {
        let shape = shape_for(hands);
        let mut lanes = Vec::with_capacity(alloc, numbers.len())?;
        let mut desks = empty_desks(alloc, hands + 1)?;
        for number in numbers {
            let (lane, passes) = L::make(alloc, &shape)?;
            seat_all(alloc, *number, &lane, passes, &mut desks)?;
            lanes.push(lane)?;
        }
        let books = Vec::with_capacity(alloc, numbers.len())?;
        Ok((LaneSet { lanes, books }, desks))
    }

    /// The lanes, in the order of their numbers.
    pub fn lanes(&self) -> &[L]
        ensures { result.now ≡ self.now.lanes.items }
    {
        self.lanes.as_slice()
    }

    /// Closes the lanes, whose desks these are. The books stand in the order of the lanes.
    pub fn close(self, mut desks: Vec<Desk<L>>) -> Vec<L::Book>
        requires some { 0 < length desks.items }
        requires callers { All (λ lane. (L.lane_shape lane).callers ≡ length desks.items) self.lanes.items }
        requires seats { AllZip
            (λ c desk. map (λ s. seat (L.pass_identity s.pass) (L.pass_shape s.pass) (L.callers s.pass)) desk.sessions.items
            ≡ map (λ lane. seat (L.identity lane) (L.lane_shape lane) (c ∷ [])) self.lanes.items)
            (range_with_len 0 (length desks.items)) desks.items }
        requires nothing_pending { All (λ desk. All (λ s. s.pending ≡ []) desk.sessions.items) desks.items }
        ensures one_each { length result.items ≡ length self.lanes.items }
        ensures proper { All (λ book. IsProper (length desks.items) (L.history book)) result.items }
        ensures never_shut { All (λ book. NeverShut (L.history book)) result.items }

        // Each book begins with what each desk has seen, and has of each caller what its desk's session made, and no more.
        ensures begun { AllZip
            (λ c desk. AllZip (λ s book. SawMore c (L.seen s.pass) (L.history book)) desk.sessions.items result.items)
            (range_with_len 0 (length desks.items)) desks.items }
    {
        let LaneSet {
            mut lanes,
            mut books,
        } = self;
        while let Some(lane) = lanes.pop() {
            books.push_reserved(close_last(lane, &mut desks));
        }
        books.reverse();
        books
    }
}

// The shape of a lane that so many hands use.
fn shape_for(hands: u32) -> Shape
    requires { hands ≤ 16 }
    ensures { IsForHands hands result }
{
    Shape::new(hands + 1, MOST, MOST, ALLOWANCE, 0).unwrap()
}

// So many desks without sessions.
fn empty_desks<L: Lane>(alloc: Global, count: u32) -> Result<Vec<Desk<L>>, OutOfMemory>
    ensures count { IfOk result (λ desks. length desks.items ≡ count) }
    ensures empty { IfOk result (λ desks. All (λ desk. desk.sessions.items ≡ []) desks.items) }
{
    let mut desks = Vec::with_capacity(alloc, count as usize)?;
    for _ in 0..count {
        desks.push(Desk {
            sessions: Vec::new(alloc),
        })?;
    }
    Ok(desks)
}
