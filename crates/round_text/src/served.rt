// The line behind the replies of a round.
ghost use Rattle.std.specs.Prelude.{◌≡◌, ◌++◌, OnOk, OnErr};
ghost use Rattle.round_text.specs.Served.{done_line};

use bq_model::{OutOfMemory, Text};
use itoa::Buffer;

/// Appends the line that the round of this number is done. Where memory is lacking, the text stays.
pub fn print_done(text: &mut Text, round: u64) -> Result<(), OutOfMemory>
    ensures ok { OnOk result (text.new ≡ text.old ++ done_line round) }
    ensures err { OnErr result (text.new ≡ text.old) }
{
    let mut buffer = Buffer::new();
    let number = buffer.format(round).as_bytes();
    text.append_parts(&[b"done ", number, b"\n"])
}
