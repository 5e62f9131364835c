//! Runs the jobs of a file whose arguments may name earlier jobs, level by level.
//!
//! `resolve` makes a job of one that names others, by their answers. `levels` has the numbers of the jobs of each
//! level, and `level_file` the jobs of a level as a file of their own. `texts` puts answers at the places of their jobs,
//! and `run` runs one level after another. `laws` has laws of the answers. What a job resolves to stands in
//! `specs/Resolve.antt`, the answers in `specs/Answers.antt`, and the file of a level in `specs/LevelFile.antt`.
#![tactic(auto)]

mod laws;
mod level_file;
mod levels;
mod resolve;
mod run;
mod texts;

pub use laws::jobs_that_name_none_are_answered_as_they_stand;
pub use run::{DepDone, run_deps};
