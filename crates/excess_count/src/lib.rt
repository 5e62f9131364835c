//! What a batch gets from a queue, by counting: how many of its dequeues succeed and which value each one gets,
//! for any queue, shut or not, from three counts and the length of the queue, without a replay.
//!
//! `counts` has the counts of a batch and the number of its successes; `place` says which value a dequeue gets,
//! and `pairing` gives a whole batch its answers. What is named `_shut` is for a queue that was shut. The definitions stand in `specs/`, and that they agree with the
//! replay is said by the clauses of these calls.
#![tactic(auto)]

mod counts;
mod pairing;
mod place;
#[cfg(test)]
mod tests;

pub use counts::{Counts, count, successes, successes_shut};
pub use pairing::{answer_all, pair, pair_shut};
pub use place::{Which, answer_at, answer_at_shut};
