//! What a job is, and the answer that it has.
//!
//! `job` has the kinds of job. `answers` answers any of them, by a file for each kind: `sum`, `digest`, `count`,
//! `mix` and `words`; `decimal` prints a number. What each kind answers stands in `specs/Answer.antt`.
#![tactic(auto)]

mod answers;
mod count;
mod decimal;
mod digest;
mod job;
mod mix;
mod sum;
#[cfg(test)]
mod tests;
mod words;

pub use answers::answer;
pub use job::Job;
pub use words::words_laws;
