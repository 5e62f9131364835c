//! The rounds of one caller with its session: operations are deferred, and then made as one group or withdrawn.
//!
//! `tickets` has the calls. What is held of a session in a round is said in `specs/Holds.antt`.
#![tactic(auto)]

mod tickets;

pub use tickets::{defer_dequeues, defer_jobs, dequeue_once, make_all, spend_all, withdraw_all};
