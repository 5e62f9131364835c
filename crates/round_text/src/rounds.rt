// The rounds of a stream that lies in memory.
ghost use Rattle.std.specs.Prelude.{◌≡◌, IfOk, vec_len};
ghost use Rattle.text_lines.specs.Reading.{fault};
ghost use Rattle.round_text.specs.Rounds.{rounds_of, behind_files, none_but, rest_of};

use crate::find::first_round;
use bq_model::{Items, OutOfMemory, TextCause, TextFault, TextRefused};
use job_text::{JobFile, read_jobs};
use std::alloc::Global;

/// The most rounds of a stream.
pub const MOST_ROUNDS: usize = 10_000;

/// The most bytes of a round before its `go` line.
pub(crate) const MOST_BYTES: usize = 16_777_216;

/// What is wrong with a stream, and in which round, counted from 0.
#[derive(Clone, Copy, Debug, PartialEq, Eq)]
pub struct RoundFault {
    /// The number of the round.
    pub round: u64,
    /// What is wrong there. Lines are numbered within the round.
    pub fault: TextFault,
}

/// The rounds of a stream.
#[derive(Drop)]
pub struct Rounds {
    /// The job files of the rounds before the first fault.
    pub files: Items<JobFile>,
    /// The first fault.
    pub fault: Option<RoundFault>,
}

/// The rounds of all of these bytes.
pub fn rounds_in(alloc: Global, bytes: &[u8]) -> Result<Rounds, OutOfMemory>
    ensures { IfOk result (λ rounds. rounds ≡ rounds_of bytes.now) }
{
    let mut files = Vec::new(alloc);
    let mut rest = bytes;
    while let Some((text, end)) = first_round(rest) {
        if files.len() == MOST_ROUNDS {
            return Ok(refused(files, 1, TextCause::TooMany));
        }
        match read_jobs(alloc, &rest[..text]) {
            Ok(file) => files.push(file)?,
            Err(TextRefused::Text(fault)) => return Ok(refused(files, fault.line, fault.cause)),
            Err(TextRefused::Memory) => return Err(OutOfMemory),
        }
        rest = &rest[end..];
    }
    Ok(with_rest(files, rest))
}

// These files, and this fault in the next round.
fn refused(files: Vec<JobFile>, line: u32, cause: TextCause) -> Rounds
    ensures { result ≡ behind_files files.items (none_but (vec_len files) (fault line cause)) }
{
    let round = files.len() as u64;
    Rounds {
        files: Items::from(files),
        fault: Some(RoundFault {
            round,
            fault: TextFault { line, cause },
        }),
    }
}

// These files, and behind them bytes that no `go` line ends.
fn with_rest(files: Vec<JobFile>, rest: &[u8]) -> Rounds
    ensures { result ≡ behind_files files.items (rest_of (vec_len files) rest.now) }
{
    if rest.is_empty() {
        Rounds {
            files: Items::from(files),
            fault: None,
        }
    } else if files.len() == MOST_ROUNDS {
        refused(files, 1, TextCause::TooMany)
    } else if rest.len() <= MOST_BYTES {
        refused(files, 1, TextCause::OpenRound)
    } else {
        refused(files, 0, TextCause::TooLong)
    }
}
