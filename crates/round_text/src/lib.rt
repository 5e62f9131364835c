//! A stream of job files that are parted by `go` lines, cut into its rounds.
//!
//! `find` looks for the first `go` line of some bytes, and `rounds` has the rounds of a stream that lies in memory.
//! `reader` reads a stream round by round, whatever its pieces are, with what was read `ahead`. What the rounds of a
//! stream are stands in `specs/Stream.antt` and `specs/Rounds.antt`, what comes next of one in `specs/Coming.antt`, and
//! what it is served with in `specs/Served.antt`, whose last line of a round `served` prints.
#![tactic(auto)]

mod ahead;
mod find;
mod reader;
mod rounds;
mod served;
#[cfg(test)]
mod tests;

pub use reader::{Next, RoundReader};
pub use rounds::{MOST_ROUNDS, RoundFault, Rounds, rounds_in};
pub use served::print_done;
