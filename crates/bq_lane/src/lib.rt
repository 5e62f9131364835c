//! A lane without locks, which threads run over one table of words.
//!
//! Its calls make the steps of the machine of `lane_steps`, each on the table's words as `lane_rule` lets them, and no others.
//! `drive` makes a whole command of steps, each of which leaves less of it (`left_of` of `lane_rule`), so it ends whatever other
//! callers do. It takes the usual ways of `plain_ways`, `help_ways` and `batch_ways`, which are straight code, and where something
//! unusual is met the one general step of `lane_course`, which serves all points.
//!
//! `start` lays out what a command begins with, `seek` goes on from its search for a row, `enqueue` is a plain enqueue as a whole
//! call, `make` has the words and the passes of a new lane, `pass` what callers keep between two calls, and `lane` the lane with
//! its calls.
#![tactic(auto)]

mod drive;
mod enqueue;
mod lane;
mod make;
mod pass;
mod seek;
mod start;

pub use lane::BqLane;
pub use pass::{Book, Pass};
