// Laws about the definitions.
ghost use Rattle.std.specs.Prelude.{◌≡◌, List};
ghost use Rattle.std.specs.List.{flat_map};
ghost use Rattle.bq_model.specs.declared.group.Group.{Group};
ghost use Rattle.job_text.specs.declared.file.Unit.{Unit};
ghost use Rattle.job_text.specs.Replies.{reply_line};
ghost use Rattle.bulk_dispatcher.specs.declared.reply.Reply.{Reply};
ghost use Rattle.bulk_dispatcher.specs.Replies.{RepliesFit};

/// The replies to a file are the same text for all hands and batches, whatever the books of the runs have, and whichever
/// hand answered which job.
pub fn every_run_has_one_text()
    ensures same_text { (file : List Unit) (books more_books : List (List Group)) (replies more_replies : List Reply)
        → RepliesFit file books replies → RepliesFit file more_books more_replies
        → flat_map (λ reply. reply_line reply.job reply.text) replies ≡ flat_map (λ reply. reply_line reply.job reply.text) more_replies }
{}
