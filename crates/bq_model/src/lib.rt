//! The queue that everything else is measured by, and what the other crates pass to one another.
//!
//! `op` and `group` have operations, answers and groups; `shape` the limits of a lane; `lane` what every queue
//! promises to those who use it; `items` the lists that contracts see as lists, and `bounded` those with a capacity,
//! as the answers to a `batch`; `error` the refusals and `fault` the faults of a text; `source` and `sink` the two
//! ends of the program, `memory_source` and `memory_sink` those over memory, `adapter` those over std's readers and
//! writers; `judge` tells whether answers are those of one thread, and `laws` has laws of the definitions, which stand
//! in `specs/`, one notion a file.
#![tactic(auto)]

mod adapter;
mod batch;
mod bounded;
mod error;
mod fault;
mod group;
mod items;
mod judge;
mod lane;
mod laws;
mod memory_sink;
mod memory_source;
mod op;
mod shape;
mod sink;
mod source;
#[cfg(test)]
mod stream_tests;

pub use adapter::{ReadSource, WriteSink};
pub use batch::Batch;
pub use bounded::{Answers, Bounded};
pub use error::{Failed, OutOfMemory, Refusal};
pub use fault::{TextCause, TextFault, TextRefused};
pub use group::Group;
pub use items::{Bytes, Items, Numbers, Ops, Text, Texts};
pub use judge::legal;
pub use lane::Lane;
pub use laws::{a_count_that_stays_is_no_rise, first_in_is_first_out};
pub use memory_sink::MemorySink;
pub use memory_source::MemorySource;
pub use op::{Answer, Op};
pub use shape::Shape;
pub use sink::{NullSink, Sink};
pub use source::Source;
