//! Files of jobs whose arguments may name earlier jobs, as text.
//!
//! `job` has such a job, and `level` the level that it has by those that it names. `file` has a file of them, and
//! `read` reads one from its text: `parts` puts the parts of a line together, `references` reads numbers and bytes or
//! what names a job in their place, `dep_words` reads the words of a job, and `progress` goes from line to line. `laws`
//! has laws of the grammar. What the text of such a file is stands in `specs/Grammar.antt`, the levels in
//! `specs/Levels.antt`, and what a file keeps in `specs/DepFile.antt`.
#![tactic(auto)]

mod dep_words;
mod file;
mod job;
mod laws;
mod level;
mod parts;
mod progress;
mod read;
mod references;
#[cfg(test)]
mod tests;

pub use file::DepFile;
pub use job::{Arg, Args, DepJob, DepWork, Piece, Place};
pub use laws::{first_cause_of_a_dep_line_is_named, first_faulty_line_of_deps_is_named};
pub use read::read_deps;
