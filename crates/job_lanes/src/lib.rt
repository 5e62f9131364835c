//! The lanes of a job file, and the desks at which hands use them.
//!
//! `lane_set` has the lanes and makes and closes them, `desk` the sessions of one caller, one for each lane. Where a
//! session sits is said in `specs/Seats.antt`.
#![tactic(auto)]

mod desk;
mod lane_set;
mod seating;

pub use desk::Desk;
pub use lane_set::LaneSet;
