// The rows that a caller let go and may use again as soon as nobody holds them. It takes no memory after it was made:
// its capacity is reserved.
ghost use Rattle.std.specs.Prelude.{◌≡◌, ◌≢◌, ◌+◌, ◌<◌, ◌≤◌, ◌↔◌, All, AllPairs, Contains, [], ◌∷◌, ◌++◌, length, IfOk, IfSome, IsSome, IsNone, position, vec_len, vec_capacity};
ghost use Rattle.node_guard.specs.Retired.{is_unheld, first_unheld, without_first_unheld};

use bq_model::{OutOfMemory, Shape};
use std::alloc::Global;
use std::marker::Model;

/// Rows in the order in which they were put.
#[derive(Debug, Drop)]
pub struct Retired {
    rows: Vec<u32>,
    capacity: u32,
}

impl Model for Retired {
    ghost use Rattle.std.specs.Prelude.{ℕ, ◌<◌, ◌≤◌, ◌^◌};
    ghost use Rattle.std.specs.Vec.{vec_len, vec_capacity};
    ghost use Rattle.bq_model.specs.Bounded.{BoundedList};

    ghost Value = { BoundedList ℕ };

    ghost view = { λ r. record { items = r.rows.items; capacity = r.capacity } };

    ghost invariant = { λ r. (vec_len r.rows ≤ r.capacity) × (r.capacity ≤ vec_capacity r.rows) × (r.capacity < 2 ^ 32) };
}

impl Retired {
    /// An empty list. It has room for the rows of a batch, one for each caller that may hold a row, and one more.
    pub fn new(alloc: Global, shape: &Shape) -> Result<Retired, OutOfMemory>
        ensures empty { IfOk result (λ rows. rows.items ≡ []) }
        ensures capacity { IfOk result (λ rows. rows.capacity ≡ shape.now.batch + shape.now.callers + 1) }
    {
        let capacity = shape.batch() + shape.callers() + 1;
        Ok(Retired {
            rows: Vec::with_capacity(alloc, capacity as usize)?,
            capacity,
        })
    }

    /// How many rows there are.
    pub fn len(&self) -> u32
        ensures { result ≡ length self.now.items }
    {
        self.rows.len() as u32
    }

    /// Puts a row behind the others.
    pub fn put(&mut self, row: u32)
        requires { length self.old.items < self.old.capacity }
        ensures put_last { self.new.items ≡ self.old.items ++ row ∷ [] }
        ensures capacity_stays { self.new.capacity ≡ self.old.capacity }
    {
        self.rows.push_reserved(row);
    }

    /// The first row that is none of these.
    pub fn first_unheld(&self, held: &[u32]) -> Option<u32>
        ensures first_unheld_is_told { result ≡ first_unheld held.now self.now.items }
    {
        self.rows.iter().copied().find(|row| !held.contains(row))
    }

    /// Takes out the first row that is none of these.
    pub fn take_unheld(&mut self, held: &[u32]) -> Option<u32>
        ensures first_unheld_is_given { result ≡ first_unheld held.now self.old.items }
        ensures others_stay_in_order { self.new.items ≡ without_first_unheld held.now self.old.items }
        ensures nothing_held_is_given { IfSome result (λ row. ¬ Contains held.now row) }
        ensures none_where_all_are_held { IsNone result ↔ All (λ row. Contains held.now row) self.old.items }
        ensures some_where_fewer_are_held { AllPairs (λ row other. row ≢ other) self.old.items
            → length held.now < length self.old.items → IsSome result }
        ensures capacity_stays { self.new.capacity ≡ self.old.capacity }
    {
        take_first_unheld(&mut self.rows, held)
    }
}

// Takes the first of the rows out that is none of these.
fn take_first_unheld(rows: &mut Vec<u32>, held: &[u32]) -> Option<u32>
    ensures given { result ≡ first_unheld held.now rows.old.items }
    ensures left { rows.new.items ≡ without_first_unheld held.now rows.old.items }
    ensures no_more { vec_len rows.new ≤ vec_len rows.old }
    ensures capacity_stays { vec_capacity rows.new ≡ vec_capacity rows.old }
{
    let place = place_of_unheld(rows.as_slice(), held)?;
    Some(rows.remove(place))
}

// The place of the first row that is none of these.
fn place_of_unheld(rows: &[u32], held: &[u32]) -> Option<usize>
    ensures { result ≡ position (is_unheld held.now) rows.now }
{
    rows.iter().position(|row| !held.contains(row))
}
