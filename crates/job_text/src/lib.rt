//! Job files and replies as text.
//!
//! `file` has a file of jobs, and `read` reads one from its text: `job_words` reads the words of a job, and `progress`
//! goes from line to line, with the `block` that is open. `print` prints a file in its canonical form, `generator`
//! makes files up, and `reply` prints the reply to a job. `same` compares files. What the text of a job file is stands in
//! `specs/Grammar.antt`, its canonical form in `specs/Canon.antt`, what is made up in `specs/Generator.antt`, and what
//! a reply is in `specs/Replies.antt`.
#![tactic(auto)]

mod block;
mod file;
mod generator;
mod job_words;
mod laws;
mod print;
#[cfg(test)]
mod print_tests;
mod progress;
mod read;
mod reply;
mod same;
#[cfg(test)]
mod tests;

pub use file::{JobFile, Unit};
pub use generator::generated;
pub use job_words::{read_lane, read_texts};
pub use laws::{
    first_cause_of_a_line_is_named, first_faulty_line_is_named, longer_texts_are_alike,
    made_up_file_has_each_job, printed_file_is_read_back,
};
pub use print::print_jobs;
pub use read::read_jobs;
pub use reply::print_reply;
