// The reader of a job file's text.
ghost use Rattle.job_text.specs.Grammar.{jobs_of, units_at_end};
ghost use Rattle.job_text.specs.InProgress.{IsInProgress};
ghost use Rattle.job_text.specs.Reads.{Reads};

use crate::file::JobFile;
use crate::progress::Progress;
use bq_model::{OutOfMemory, TextRefused};
use std::alloc::Global;
use text_lines::read_text;

/// Reads the text of a job file. A text that is none is refused with its fault.
pub fn read_jobs(alloc: Global, bytes: &[u8]) -> Result<JobFile, TextRefused>
    ensures { Reads result (jobs_of bytes.now) }
{
    let mut progress = Progress::new(alloc);
    match read_text(&mut progress, b"bqjobs", b"1", bytes) {
        Ok(()) => file_of(alloc, progress),
        Err(refused) => Err(refused),
    }
}

// The file, where the text ends here.
fn file_of(alloc: Global, progress: Progress) -> Result<JobFile, TextRefused>
    requires { IsInProgress progress }
    ensures { Reads result (units_at_end progress.units progress.block) }
{
    match progress.end() {
        Ok(units) => match JobFile::new(alloc, units) {
            Ok(file) => Ok(file),
            Err(OutOfMemory) => Err(TextRefused::Memory),
        },
        Err(fault) => Err(TextRefused::Text(fault)),
    }
}
