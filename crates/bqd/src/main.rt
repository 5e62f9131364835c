//! The program: a job file comes in by standard input, and its replies go out by standard output.
//!
//! `command` reads the words of the command line and `usage` says which there are; `input` reads all of the
//! input and `file` the job file that it is; `top` is the program over any streams, and `still` those commands of it
//! that run no jobs, of which `texts` has those that read a history or a schedule; `status` has the numbers that it ends with and `ended` what it leaves; `replies` prints the replies, `output` writes all of a text, and `line` is the
//! line that tells the fault of a text, `verdict_line` the one that tells a verdict. The texts that a user sees and the causes of the statuses stand in `specs/`.
#![tactic(auto)]

#[cfg(test)]
mod cases;
mod command;
mod drill;
mod drill_line;
mod ended;
mod file;
#[cfg(test)]
mod hostile_tests;
#[cfg(test)]
mod hostile_words;
mod input;
mod jobs;
mod line;
mod output;
mod replies;
mod run;
#[cfg(test)]
mod run_tests;
mod status;
mod still;
#[cfg(test)]
mod tests;
#[cfg(test)]
mod text_tests;
mod texts;
mod top;
#[cfg(test)]
mod top_tests;
mod usage;
mod verdict_line;

use bq_model::{ReadSource, WriteSink};
use bulk_dispatcher::NoGate;
use status::Status;
use std::process::ExitCode;
use std::rt::Env;
use std::{env, io};
use top::top;

/// The words after the program's name.
fn words<R: Env + AllocGlobal>(rt: &R) -> io::Result<Vec<String>> {
    Ok(env::args(rt)?.skip(1).collect(rt.alloc())?)
}

fn main(rt: HostRuntime) -> ExitCode {
    let Ok(words) = words(&rt) else {
        return ExitCode::from(Status::OutOfMemory as u8);
    };
    let mut source = ReadSource::new(rt.stdin());
    let mut out = WriteSink::new(rt.stdout());
    let mut err = WriteSink::new(rt.stderr());
    let alloc = rt.alloc();
    let ended = top(&rt, alloc, &words, &mut source, &mut out, &mut err, &NoGate);
    ExitCode::from(ended.status)
}
