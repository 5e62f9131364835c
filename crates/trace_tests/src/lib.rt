//! Tests of histories that are judged and of schedules that are played, over the texts alone.
//!
//! `histories` has texts of histories with what is found of them, `schedules` texts of schedules with the histories that
//! they give, `beside` and `stops` those that stop a caller before each kind of step, and `stops` those that make all steps
//! that a schedule may have.
//! `parts` makes texts of parts.
#![tactic(auto)]

#[cfg(test)]
mod beside;
#[cfg(test)]
mod histories;
#[cfg(test)]
mod parts;
#[cfg(test)]
mod schedules;
#[cfg(test)]
mod stops;
