// The announcements of one caller, of which it picks one for each batch.
ghost use Rattle.std.specs.Prelude.{◌≡◌, ℕ, ◌+◌, ◌*◌, ◌^◌, ◌<◌, ◌≤◌, length, Contains};
ghost use Rattle.node_guard.specs.Pick.{first_left, pick};

use bq_model::Shape;

/// The announcements that a caller owns: as many as the lane has callers, from its number times that on.
#[derive(Clone, Copy, Debug, PartialEq, Eq)]
pub struct AnnStock {
    callers: u32,
    caller: u32,
    ghost known: { caller < callers },
    ghost few: { callers ≤ 17 },
}

impl AnnStock {
    /// The stock of this caller of a lane.
    pub fn new(shape: &Shape, caller: u32) -> AnnStock
        requires { caller < shape.now.callers }
        ensures callers { result.callers ≡ shape.now.callers }
        ensures caller { result.caller ≡ caller }
    {
        AnnStock {
            callers: shape.callers(),
            caller,
        }
    }

    /// The least of the caller's announcements that is none of these.
    pub fn pick(&self, held: &[u32]) -> u32
        requires { length held.now < self.now.callers }
        ensures least_unheld { result ≡ pick self.now.callers self.now.caller held.now }
        ensures own { (self.now.caller * self.now.callers ≤ result) × (result < self.now.caller * self.now.callers + self.now.callers) }
        ensures never_a_held_one { ¬ Contains held.now result }
        ensures all_before_are_held { (a : ℕ) → self.now.caller * self.now.callers ≤ a → a < result → Contains held.now a }
    {
        first_left(held, self.caller * self.callers, self.callers - 1)
    }
}

// The first of so many numbers that is none of these; where there is none, the one behind them.
fn first_left(held: &[u32], first: u32, count: u32) -> u32
    requires { first + count < 2 ^ 32 }
    ensures { result ≡ first_left held.now count first }
{
    let behind = first + count;
    let mut number = first;
    while number < behind && held.contains(&number) {
        number += 1;
    }
    number
}
