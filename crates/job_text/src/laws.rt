// Laws of the grammar. Each is proved of all texts; the functions do nothing.
ghost use Rattle.std.specs.Prelude.{◌≡◌, ◌≢◌, ◌+◌, ◌<◌, ◌≤◌, ◌↔◌, List, [], ℕ, length, take, codes, Ok, Err, Some};
ghost use Rattle.bq_model.specs.declared.fault.TextCause.TheVariants.{TooLong, OpenBlock};
ghost use Rattle.bq_model.specs.declared.fault.TextFault.{TextFault};
ghost use Rattle.text_lines.specs.Cause.{NamesFirst};
ghost use Rattle.text_lines.specs.LineCauses.{line_causes};
ghost use Rattle.text_lines.specs.Lines.{lines_of};
ghost use Rattle.text_lines.specs.Reading.{most_bytes, fault, text_line, IsFirstFault};
ghost use Rattle.job_text.specs.declared.block.Block.{Block};
ghost use Rattle.job_text.specs.declared.file.Unit.{Unit};
ghost use Rattle.job_text.specs.JobFile.{IsJobFile, all_jobs};
ghost use Rattle.job_text.specs.Canon.{canon};
ghost use Rattle.job_text.specs.Generator.{gen_of, jobs_from};
ghost use Rattle.job_text.specs.Grammar.{LinesSay, jobs_of, progress_of, meaning, nothing_yet};
ghost use Rattle.job_text.specs.LineCauses.{applying};

/// A text that is too long has that fault and no other. Else the fault is that of the first line with a fault, and an
/// open block comes only where no line has one.
pub fn first_faulty_line_is_named()
    ensures too_long { (text : List ℕ) → most_bytes < length text → jobs_of text ≡ Err (fault 0 TooLong) }
    ensures first_line { (text : List ℕ) (found : TextFault) → length text ≤ most_bytes → text ≢ []
        → (progress_of text ≡ Err found) ↔ IsFirstFault (text_line (codes "bqjobs") (codes "1") meaning) 1 nothing_yet (lines_of text) found }
    ensures line_before_block { (text : List ℕ) (found : TextFault) → (progress_of text ≡ Err found) → jobs_of text ≡ Err found }
    ensures open_block { (text : List ℕ) (so_far : LinesSay) (block : Block) → (progress_of text ≡ Ok so_far)
        → so_far.block ≡ Some block → jobs_of text ≡ Err (fault block.line OpenBlock) }
{}

/// The fault of a line is the one that comes first in the order, of all causes that apply to the line; a line to which
/// none applies is taken.
pub fn first_cause_of_a_line_is_named()
    ensures { (number : ℕ) (so_far : LinesSay) (line : List ℕ)
        → NamesFirst (line_causes (codes "bqjobs") (codes "1") applying number so_far line) (text_line (codes "bqjobs") (codes "1") meaning number so_far line) }
{}

/// A text is read as its first 16,777,217 bytes are, so that no more of it need be looked at.
pub fn longer_texts_are_alike()
    ensures { (text : List ℕ) → jobs_of (take (most_bytes + 1) text) ≡ jobs_of text }
{}

/// The canonical text of a file's units is read as the same file, if it isn't longer than a text may be.
pub fn printed_file_is_read_back()
    ensures { (units : List Unit) → IsJobFile units → length (canon units) ≤ most_bytes → jobs_of (canon units) ≡ Ok units }
{}

/// A file that is made up has the jobs 0 to n - 1, each once and in order. With at most 500,000 jobs it is in the ranges
/// of a file.
pub fn made_up_file_has_each_job()
    ensures jobs { (n : ℕ) → all_jobs (gen_of n) ≡ jobs_from 0 n }
    ensures ranges { (n : ℕ) → n ≤ 500000 → IsJobFile (gen_of n) }
{}
