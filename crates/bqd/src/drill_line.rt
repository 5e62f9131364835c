// The line that tells a user what came of a drill.
ghost use Rattle.std.specs.Prelude.{◌≡◌};
ghost use Rattle.bqd.specs.DrillLine.{fold_of, drill_text};

use arrayvec::ArrayString;
use itoa::Buffer;

/// More bytes than the line of any drill has.
pub const ROOM: usize = 128;

/// The line of a drill of so many jobs, on so many lanes, with these replies, with its line feed. It takes no memory.
pub fn drill_line(jobs: u32, lanes: usize, replies: &[u8]) -> ArrayString<ROOM>
    ensures { result.bytes ≡ drill_text jobs lanes replies.now }
{
    let mut digits = Buffer::new();
    let mut line = ArrayString::new();
    line.push_str("jobs ");
    line.push_str(digits.format(jobs));
    line.push_str(" lanes ");
    line.push_str(digits.format(lanes));
    line.push_str(" bytes ");
    line.push_str(digits.format(replies.len()));
    line.push_str(" fold ");
    line.push_str(digits.format(fold_of(replies)));
    line.push_str("\n");
    line
}

// A number that tells most texts apart.
fn fold_of(bytes: &[u8]) -> u64
    ensures { result ≡ fold_of bytes.now }
{
    let mut fold: u64 = 0;
    for byte in bytes {
        fold = fold.wrapping_mul(31).wrapping_add(u64::from(*byte));
    }
    fold
}
