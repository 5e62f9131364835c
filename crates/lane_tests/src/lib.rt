//! Tests of sessions, and of callers beside each other, over the lane that runs.
//!
//! `calling` has two callers as docs/CALLING.md shows them. `bench` has a lane of one caller with its session, and `slow`
//! a model of both that does each operation by itself; `worked` has the worked examples over them, and `sequences` the
//! calls that are compared with the model. `beside` and `mixed` have callers in threads of their own.
#![tactic(auto)]

#[cfg(test)]
mod bench;
#[cfg(test)]
mod beside;
#[cfg(test)]
mod calling;
#[cfg(test)]
mod mixed;
#[cfg(test)]
mod sequences;
#[cfg(test)]
mod slow;
#[cfg(test)]
mod worked;
