// The reply to a job.
ghost use Rattle.std.specs.Prelude.{◌≡◌, ◌++◌, OnOk, OnErr};
ghost use Rattle.job_text.specs.Replies.{reply_line};

use bq_model::{OutOfMemory, Text};
use itoa::Buffer;

/// Appends the reply to the job of this number: the number in decimal, a blank, the answer and a line feed. Where
/// memory is lacking, the text stays.
pub fn print_reply(text: &mut Text, job: u32, answer: &Text) -> Result<(), OutOfMemory>
    ensures ok { OnOk result (text.new ≡ text.old ++ reply_line job answer.now) }
    ensures err { OnErr result (text.new ≡ text.old) }
{
    let mut buffer = Buffer::new();
    let number = buffer.format(job).as_bytes();
    text.append_parts(&[number, b" ", answer.as_slice(), b"\n"])
}
