// Laws of the answers. Each is proved of all files; the function does nothing.
ghost use Rattle.std.specs.Prelude.{◌≡◌, List, map};
ghost use Rattle.job_work.specs.Answer.{answer_of};
ghost use Rattle.job_text.specs.JobFile.{all_jobs};
ghost use Rattle.job_text.specs.Replies.{replies_of};
ghost use Rattle.dep_text.specs.declared.job.DepJob.{DepJob};
ghost use Rattle.dep_text.specs.DepFile.{IsDepFile};
ghost use Rattle.dep_jobs.specs.Answers.{answers_of};
ghost use Rattle.dep_jobs.specs.Plain.{NamesNone, plain_file, lines_from};

/// Where no job names another one, the answers are those of the job file of the same jobs, and so is their text.
pub fn jobs_that_name_none_are_answered_as_they_stand()
    ensures answers { (jobs : List DepJob) → IsDepFile jobs → NamesNone jobs → answers_of jobs ≡ map answer_of (all_jobs (plain_file jobs)) }
    ensures text { (jobs : List DepJob) → IsDepFile jobs → NamesNone jobs → lines_from 0 (answers_of jobs) ≡ replies_of (plain_file jobs) }
{}
