//! The usual ways of a help, of a batch's answers and of several dequeues as straight code, one step after another.
//!
//! Each way begins at a point of the machine of `lane_steps` and says with `IsNext` what its command comes to, as the general step
//! of `lane_course` does, to which it gives back where something unusual is met. `help_way` and `help_tail` make a help,
//! `answer_way` reads the answers of a batch, and `many_way` makes several dequeues and no enqueue; `count` and `found` have what
//! they share.
#![tactic(auto)]

mod answer_way;
mod count;
mod found;
mod help_tail;
mod help_way;
mod many_way;

pub use answer_way::read_answers;
pub use found::is_dummy;
pub use help_way::{help_found, help_on};
pub use many_way::{dequeue_many, dequeue_many_first, dequeue_many_on};
