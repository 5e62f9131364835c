//! Why a command of the machine ends with Full, after every list of events.
//!
//! `lane_room` has the law of each event, and `step_core` what a list of events makes of a lane.
#![tactic(auto)]

mod laws;

pub use laws::full_ends_a_command_above_the_room;
