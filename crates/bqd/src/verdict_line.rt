// The line that tells a user what was found of a history.
ghost use Rattle.std.specs.Prelude.{◌≡◌};
ghost use Rattle.bqd.specs.VerdictLine.{verdict_text};

use arrayvec::ArrayString;
use itoa::Buffer;
use trace_text::Verdict;

/// More bytes than the line of any verdict has.
const ROOM: usize = 64;

/// The line of this verdict, with its line feed. It takes no memory.
pub fn verdict_line(verdict: Verdict) -> ArrayString<ROOM>
    ensures { result.bytes ≡ verdict_text verdict }
{
    let mut digits = Buffer::new();
    let mut line = ArrayString::new();
    match verdict {
        Verdict::Legal { groups, operations } => {
            line.push_str("legal ");
            line.push_str(digits.format(groups));
            line.push_str(" ");
            line.push_str(digits.format(operations));
        }
        Verdict::Illegal { line: number } => {
            line.push_str("illegal line ");
            line.push_str(digits.format(number));
        }
    }
    line.push_str("\n");
    line
}
