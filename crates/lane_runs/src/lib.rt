//! Tests of whole runs of a job file, over the lane that runs.
//!
//! `alike` runs a file and compares the replies. `nightly` has a short one, by several numbers of hands, and `many` a long one,
//! by one hand.
#![tactic(auto)]

#[cfg(test)]
mod alike;
#[cfg(test)]
mod many;
#[cfg(test)]
mod nightly;
