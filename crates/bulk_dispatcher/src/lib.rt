//! Runs the jobs of a file: puts each job's number on a lane, and runs what it dequeues.
//!
//! `gate` has what a hand passes before it works, `reply` the answer to a job with the operation that got it,
//! `done` what a run leaves, and `hands` the run. `hand` is one hand: `unit` puts a unit on its lane, `round` replies to
//! what a round of operations got, and `drain` takes what is left; `work` says how these end; `beside` runs hands beside
//! each other. `laws` has a
//! law of all runs. `specs/Books.antt` says what the books of a file show, and `specs/Replies.antt` what its replies
//! name.
#![tactic(auto)]

mod beside;
mod done;
mod drain;
mod gate;
mod hand;
mod hands;
mod laws;
mod reply;
mod round;
mod unit;
mod work;

pub use done::Done;
pub use gate::{Gate, NoGate};
pub use hands::run_hands;
pub use laws::every_run_has_one_text;
pub use reply::Reply;
