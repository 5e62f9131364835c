// Parts of a line beside each other.
ghost use Rattle.bq_model.specs.declared.fault.TextCause.{TextCause};
ghost use Rattle.std.specs.Prelude.{◌≡◌, Ok, Err, Result};
ghost use Rattle.text_lines.specs.Cause.{both};
ghost use Rattle.text_lines.specs.Refusals.{ReadsPart};

use bq_model::TextCause;
use text_lines::{LineRefused, first_of};

/// What two parts say, or the cause that comes first.
pub(crate) fn both<A: Drop, B: Drop>(
    one: Result<A, TextCause>,
    other: Result<B, LineRefused>,
) -> Result<(A, B), LineRefused>
    ensures { (said : Result B TextCause) → ReadsPart said other → ReadsPart (both one said) result }
{
    match other {
        Ok(other) => match one {
            Ok(one) => Ok((one, other)),
            Err(cause) => Err(LineRefused::Cause(cause)),
        },
        Err(LineRefused::Cause(other)) => match one {
            Ok(_) => Err(LineRefused::Cause(other)),
            Err(cause) => Err(LineRefused::Cause(first_of(cause, other))),
        },
        Err(LineRefused::NoMemory) => Err(LineRefused::NoMemory),
    }
}
