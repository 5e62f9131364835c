//! What each atomic step of a caller does on a lane without locks: its words, its history, its callers, as a pure machine.
//!
//! `point` has where a caller stands in its call, nested by call. Each call has a file, `enqueue`, `dequeue`, `fill`, `batch`,
//! `many`, `help` and `answer`, and so has what all calls share, `take`, `guard` and `close`, with the rows of two tables: what
//! the step at a point does with its word (`act`), and where the caller is after it by what the step found (`step`). `kind` names the kinds of step, `found` reads what a step found, `course`
//! has what becomes of the command, `count` what a batch gets and links, `notice` what an announcement says, and `start` the
//! first step of a command.
//!
//! `specs/` has one notion a file: `State` and `Step` say what the machine is, `Start` how a command begins, `Batches` how a
//! batch is counted, a file for each call its two tables, and `Coded` what can be packed. docs/LANE.md tells how a step, a kind
//! of step or a call is added.
#![tactic(auto)]

mod act;
mod answer;
mod batch;
mod close;
mod count;
mod course;
mod dequeue;
mod enqueue;
mod fill;
mod found;
mod guard;
mod help;
mod kind;
mod many;
mod notice;
mod point;
mod rising;
mod start;
mod step;
mod take;

pub use act::Act;
pub use course::Course;
pub use fill::{first_store, past};
pub use found::{hazard_in, head_in, link_in, mark_in, old_tail_in, tail_in, value_in};
pub use kind::StepKind;
pub use point::{
    AnswerPoint, Back, BatchPoint, CallEnd, ClosePoint, Closing, DequeuePoint, Draft, EnqueuePoint,
    FillPoint, GuardPoint, Guarding, Help, HelpPoint, Hold, Item, ManyPoint, Notice, Plan, Point,
    Reading, TakePoint, Taking,
};
pub use rising::sort_rows;
pub use start::first_point;
pub use take::search;
