// Why a line is not read: its fault, or want of memory.
use bq_model::{OutOfMemory, TextCause};

/// Why a line was not read.
#[derive(Clone, Copy, Debug, PartialEq, Eq)]
pub enum LineRefused {
    /// The line has this fault.
    Cause(TextCause),
    /// Memory was lacking.
    NoMemory,
}

impl From<OutOfMemory> for LineRefused {
    ghost use Rattle.std.specs.Prelude.{◌≡◌};
    ghost use Rattle.text_lines.specs.declared.refused.LineRefused.TheVariants.{NoMemory};

    ghost from_gives = { λ _ refused. refused ≡ NoMemory };

    fn from(_error: OutOfMemory) -> Self {
        LineRefused::NoMemory
    }
}
