//! A lane as a machine that makes one atomic step at a time, of whichever caller is told to go on.
//!
//! `words` has the lane's words, `call` what it keeps of a caller, `ending` the end of its call, `lists` the state with its
//! step, and `starts` the start of a command. `machine` has `Machine`, whose state is lawful at every moment, and
//! `schedule` runs lists of events on it.
#![tactic(auto)]

mod call;
mod ending;
mod laws;
mod lists;
mod machine;
mod schedule;
mod starts;
mod words;

pub use lane_steps::{Back, CallEnd, Draft, Help, Item, Notice, Point, StepKind};
pub use laws::{every_schedule_leaves_a_lawful_lane, groups_are_the_commands_that_were_started};
pub use machine::Machine;
pub use schedule::{Event, EventCause, ScheduleRefused, run_schedule};
pub use starts::Started;
