// Laws of the grammar. Each is proved of all texts; the functions do nothing.
ghost use Rattle.std.specs.Prelude.{◌≡◌, ◌≢◌, ◌<◌, ◌≤◌, ◌↔◌, List, [], ℕ, length, codes, Ok, Err};
ghost use Rattle.bq_model.specs.declared.fault.TextCause.TheVariants.{TooLong};
ghost use Rattle.bq_model.specs.declared.fault.TextFault.{TextFault};
ghost use Rattle.text_lines.specs.Cause.{NamesFirst};
ghost use Rattle.text_lines.specs.LineCauses.{line_causes};
ghost use Rattle.text_lines.specs.Lines.{lines_of};
ghost use Rattle.text_lines.specs.Reading.{most_bytes, fault, text_line, IsFirstFault};
ghost use Rattle.dep_text.specs.declared.job.DepJob.{DepJob};
ghost use Rattle.dep_text.specs.DepFile.{IsDepFile};
ghost use Rattle.dep_text.specs.Grammar.{deps_of, meaning};
ghost use Rattle.dep_text.specs.LineCauses.{applying};

/// A text that is too long has that fault and no other. Else the fault is that of the first line with a fault. Jobs that
/// are read keep what a file keeps.
pub fn first_faulty_line_of_deps_is_named()
    ensures too_long { (text : List ℕ) → most_bytes < length text → deps_of text ≡ Err (fault 0 TooLong) }
    ensures first_line { (text : List ℕ) (found : TextFault) → length text ≤ most_bytes → text ≢ []
        → (deps_of text ≡ Err found) ↔ IsFirstFault (text_line (codes "bqdeps") (codes "1") meaning) 1 [] (lines_of text) found }
    ensures kept { (text : List ℕ) (jobs : List DepJob) → deps_of text ≡ Ok jobs → IsDepFile jobs }
{}

/// The fault of a line is the one that comes first in the order, of all causes that apply to the line; a line to which
/// none applies is taken.
pub fn first_cause_of_a_dep_line_is_named()
    ensures { (number : ℕ) (jobs : List DepJob) (line : List ℕ)
        → NamesFirst (line_causes (codes "bqdeps") (codes "1") applying number jobs line) (text_line (codes "bqdeps") (codes "1") meaning number jobs line) }
{}
