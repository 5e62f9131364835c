// The choice of an announcement: its owner reads the hazard words of all other callers, and takes the least of its own that
// none of them names.
ghost use Rattle.std.specs.Prelude.{◌≡◌, ℕ, ◌+◌, ◌<◌, ◌≤◌, length, vec_len, vec_capacity};
ghost use Rattle.lane_steps.specs.Fill.{noted, scan_from};
ghost use Rattle.lane_steps.specs.LaneSizes.{lane_sizes};
ghost use Rattle.lane_steps.specs.State.{Caller};
ghost use Rattle.lane_steps.specs.Step.{listening};
ghost use Rattle.lane_course.specs.Next.{Becomes};
ghost use Rattle.lane_course.specs.Scratch.{keeping};

use crate::next::Next;
use crate::scratch::Scratch;
use bq_model::Shape;
use lane_steps::{Draft, FillPoint, Notice, Point, first_store, past};
use node_guard::AnnStock;

/// Appends what a hazard word names, if anything.
pub fn note(named: &mut Vec<u32>, found: Option<u32>)
    requires { vec_len named.old < vec_capacity named.old }
    ensures noted { named.new.items ≡ noted named.old.items found }
    ensures one_at_most { length named.new.items ≤ length named.old.items + 1 }
    ensures capacity { vec_capacity named.new ≡ vec_capacity named.old }
{
    match found {
        Some(word) => named.push_reserved(word),
        None => {}
    }
}

// Where a caller goes on that has found these named: to the hazard words of the callers from `next` on, but its own. With
// none left it has chosen its announcement, and stores that.
fn scan_from(shape: &Shape, caller: u32, named: &[u32], notice: Notice, next: u32) -> Point
    requires known { caller < shape.now.callers }
    requires next { next ≤ shape.now.callers }
    requires left { length named.now < shape.now.callers }
    ensures { result ≡ scan_from (lane_sizes shape.now) caller named.now notice next }
{
    let other = past(caller, next);
    if other < shape.callers() {
        Point::Fill(notice, FillPoint::LoadHazard { caller: other })
    } else {
        let ann = AnnStock::new(shape, caller).pick(named);
        first_store(Draft { ann, notice })
    }
}

/// The same, with what was found named at hand.
pub fn listen(shape: &Shape, caller: u32, notice: Notice, next: u32, scratch: &Scratch) -> Next
    requires known { caller < shape.now.callers }
    requires next { next ≤ shape.now.callers }
    requires left { length scratch.now.named.items < shape.now.callers }
    ensures { (n : ℕ) (k : Caller) → Becomes n caller k scratch.now result (listening (lane_sizes shape.now) caller (keeping k scratch.now) notice next scratch.now.named.items) }
{
    Next::Goes(scan_from(shape, caller, scratch.named.as_slice(), notice, next))
}
