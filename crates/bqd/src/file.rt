// The job file that a source has.
ghost use Rattle.std.specs.Prelude.{◌≡◌, ◌+◌, ◌≤◌, Ok, Err, IfOk, IfSome, OnOk, is_some, take};
ghost use Rattle.std.specs.Io.KnownBytes.{Consumes, IsAtEnd};
ghost use Rattle.bq_model.specs.Device.{Rose};
ghost use Rattle.text_lines.specs.Reading.{most_bytes};
ghost use Rattle.job_text.specs.Grammar.{jobs_of};
ghost use Rattle.bq_model.specs.declared.fault.TextFault.{TextFault};

use crate::input::read_input;
use bq_model::{Source, TextFault, TextRefused};
use byte_streams::InputFault;
use job_text::{JobFile, read_jobs};
use std::alloc::Global;

/// Why there is no job file.
#[derive(Clone, Copy, Debug, PartialEq, Eq)]
pub enum FileFault {
    /// A read failed.
    Failed,
    /// Memory was lacking.
    Memory,
    /// The text that was read has this fault.
    Text(TextFault),
}

/// Reads a job file from the source, which is read to its end or to one byte more than a text may have.
pub fn read_file<S: Source>(alloc: Global, source: &mut S) -> Result<JobFile, FileFault>
    ensures file { IfOk result (λ file. IfSome (S.left source.old) (λ bytes. jobs_of bytes ≡ Ok file)) }
    ensures to_the_end { OnOk result (IsAtEnd (S.left source.new)) }
    ensures fault { (fault : TextFault) → result ≡ Err (FileFault.Text fault)
        → IfSome (S.left source.old) (λ bytes. jobs_of bytes ≡ Err fault) }
    ensures fault_is_seen { (fault : TextFault) → result ≡ Err (FileFault.Text fault)
        → IfSome (S.left source.old) (λ bytes. Consumes (S.left source.old) (S.left source.new) (take (most_bytes + 1) bytes)) }
    ensures failed_is_counted { result ≡ Err FileFault.Failed → Rose (S.faults source.old) (S.faults source.new) }
    ensures told { is_some (S.left source.new) ≡ is_some (S.left source.old) }
    ensures count_never_falls { S.faults source.old ≤ S.faults source.new }
{
    let bytes = match read_input(alloc, source) {
        Ok(bytes) => bytes,
        Err(InputFault::Failed) => return Err(FileFault::Failed),
        Err(InputFault::Memory) => return Err(FileFault::Memory),
    };
    match read_jobs(alloc, bytes.as_slice()) {
        Ok(file) => Ok(file),
        Err(TextRefused::Text(fault)) => Err(FileFault::Text(fault)),
        Err(TextRefused::Memory) => Err(FileFault::Memory),
    }
}
