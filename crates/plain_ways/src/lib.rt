//! The usual ways of a plain call as straight code, one step after another.
//!
//! Each way begins at a point of the machine of `lane_steps` and says with `IsNext` what its command comes to, as the general step
//! of `lane_course` does, to which it gives back (by `leave`) where something unusual is met. What comes next it tells by how the
//! command ended, if it did, and by a point that it writes only where the command goes on. `row_search` looks for a free row (by
//! `look`), `put_way` makes a plain enqueue, `dequeue` a plain dequeue, and `end_way` the end of a call.
#![tactic(auto)]

mod dequeue;
mod end_way;
mod leave;
mod look;
mod put_way;
mod row_search;

pub use dequeue::{dequeue_first, dequeue_on};
pub use end_way::{finish, finish_at, finish_rows};
pub use put_way::{link, put, put_first, put_into};
pub use row_search::find;
