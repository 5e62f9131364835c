// The text of the replies.
ghost use Rattle.std.specs.Prelude.{◌≡◌, IfOk};
ghost use Rattle.std.specs.List.{flat_map};
ghost use Rattle.job_text.specs.Replies.{reply_line};

use bq_model::{OutOfMemory, Text};
use bulk_dispatcher::Reply;
use job_text::print_reply;
use std::alloc::Global;

/// The lines of the replies, one after another.
pub fn printed(alloc: Global, replies: &[Reply]) -> Result<Text, OutOfMemory>
    ensures { IfOk result (λ text. text ≡ flat_map (λ reply. reply_line reply.job reply.text) replies.now) }
{
    let mut text = Text::new(alloc);
    for reply in replies {
        print_reply(&mut text, reply.job(), reply.text())?;
    }
    Ok(text)
}
