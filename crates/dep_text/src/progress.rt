// What the lines of a file say, one after another.
ghost use Rattle.std.specs.Prelude.{◌≡◌, ◌<◌, [], ◌∷◌, ◌++◌, length, OnOk};
ghost use Rattle.dep_text.specs.Grammar.{meaning, add_job};

use crate::dep_words::read_dep_job;
use crate::file::DepFile;
use crate::job::DepJob;
use crate::level::level_behind;
use bq_model::{OutOfMemory, TextCause};
use std::alloc::Global;
use std::marker::Model;
use text_lines::{LineReader, LineRefused, Words};

/// The most jobs of a file.
const MOST_JOBS: usize = 100_000;
/// No job has this level or one above it.
const MOST_LEVELS: u32 = 32;

/// The jobs so far, and the level of each.
#[derive(Drop)]
pub(crate) struct Progress {
    alloc: Global,
    jobs: Vec<DepJob>,
    levels: Vec<u32>,
}

impl Model for Progress {
    ghost use Rattle.std.specs.Prelude.{List};
    ghost use Rattle.dep_text.specs.declared.job.DepJob.{DepJob};
    ghost use Rattle.dep_text.specs.DepFile.{AreLeveled};

    ghost Value = { List DepJob };

    ghost view = { λ p. p.jobs.items };

    ghost invariant = { λ p. AreLeveled p.jobs.items p.levels.items };
}

impl LineReader for Progress {
    ghost use Rattle.dep_text.specs.Grammar.{meaning};

    ghost meaning = { meaning };

    fn line(&mut self, _number: u32, mut words: Words) -> Result<(), LineRefused> {
        let Some(word) = words.next() else {
            return Err(LineRefused::Cause(TextCause::BadWord));
        };
        if word != b"job".as_slice() {
            return Err(LineRefused::Cause(TextCause::BadWord));
        }
        let job = read_dep_job(self.alloc, &self.jobs, words)?;
        self.add_job(job)
    }
}

impl Progress {
    ghost use Rattle.text_lines.specs.Refusals.{ReadsLine};
    ghost use Rattle.dep_text.specs.DepFile.{IsDepFile, most_dep_jobs};
    ghost use Rattle.dep_text.specs.Levels.{most_levels, level_behind, levels_of};

    /// Before the first line.
    pub(crate) fn new(alloc: Global) -> Self
        ensures { result ≡ [] }
    {
        Progress {
            alloc,
            jobs: Vec::new(alloc),
            levels: Vec::new(alloc),
        }
    }

    fn add_job(&mut self, job: DepJob) -> Result<(), LineRefused>
        ensures { ReadsLine (add_job self.old job) result self.new }
    {
        if self.jobs.len() >= MOST_JOBS {
            return Err(LineRefused::Cause(TextCause::TooMany));
        }
        let level = level_behind(&self.levels, &job.work);
        if level >= MOST_LEVELS {
            return Err(LineRefused::Cause(TextCause::TooDeep));
        }
        self.push(job, level)?;
        Ok(())
    }

    // Appends a job that has this level.
    fn push(&mut self, job: DepJob, level: u32) -> Result<(), OutOfMemory>
        requires room { length self.old < most_dep_jobs }
        requires leveled { level ≡ level_behind (levels_of self.old) job.work }
        requires low { level < most_levels }
        ensures { OnOk result (self.new ≡ self.old ++ job ∷ []) }
    {
        self.levels.push(level)?;
        if self.jobs.push(job).is_err() {
            let _ = self.levels.pop();
            return Err(OutOfMemory);
        }
        Ok(())
    }

    /// The file, where the text ends here.
    pub(crate) fn end(self) -> DepFile
        requires { IsDepFile self }
        ensures { result ≡ self }
    {
        let Progress { jobs, levels, .. } = self;
        DepFile::new(jobs, levels)
    }
}
