// The line that tells a user the fault of a text.
ghost use Rattle.std.specs.Prelude.{◌≡◌};
ghost use Rattle.bqd.specs.Line.{fault_text};

use arrayvec::ArrayString;
use bq_model::TextFault;
use itoa::Buffer;

/// More bytes than any fault's line has.
const ROOM: usize = 64;

/// The line of this fault, with its line feed. It takes no memory.
pub fn fault_line(fault: TextFault) -> ArrayString<ROOM>
    ensures { result.bytes ≡ fault_text fault }
{
    let mut digits = Buffer::new();
    let mut line = ArrayString::new();
    line.push_str("bqd: line ");
    line.push_str(digits.format(fault.line));
    line.push_str(": ");
    line.push_str(fault.cause.text());
    line.push_str("\n");
    line
}
