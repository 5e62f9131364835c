//! The usual ways of a batch up to the install of its announcement as straight code, one step after another.
//!
//! Each way begins at a point of the machine of `lane_steps` and says with `IsNext` what its command comes to, as the general step
//! of `lane_course` does, to which it gives back where something unusual is met. `rows` takes, fills and links the rows of a batch
//! with an enqueue, `announce` chooses, writes and installs its announcement, and `stopper` does both for several dequeues that
//! found too few values.
#![tactic(auto)]

mod announce;
mod rows;
mod stopper;

pub use announce::install;
pub use rows::{fill, fill_first, fill_from};
pub use stopper::{announce_alone, stop, stop_from};
