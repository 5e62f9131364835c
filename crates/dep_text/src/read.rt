// The reader of the text of a file of jobs that name earlier jobs.
ghost use Rattle.dep_text.specs.Grammar.{deps_of};
ghost use Rattle.dep_text.specs.Reads.{Reads};

use crate::file::DepFile;
use crate::progress::Progress;
use bq_model::TextRefused;
use std::alloc::Global;
use text_lines::read_text;

/// Reads the text of a file of jobs that may name earlier jobs. A text that is none is refused with its fault.
pub fn read_deps(alloc: Global, bytes: &[u8]) -> Result<DepFile, TextRefused>
    ensures { Reads result (deps_of bytes.now) }
{
    let mut progress = Progress::new(alloc);
    match read_text(&mut progress, b"bqdeps", b"1", bytes) {
        Ok(()) => Ok(progress.end()),
        Err(refused) => Err(refused),
    }
}
