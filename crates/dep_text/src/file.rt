// A file of jobs that may name earlier jobs, and beside them the level of each.
ghost use Rattle.std.specs.Prelude.{◌≡◌};
ghost use Rattle.dep_text.specs.DepFile.{IsDepFile};
ghost use Rattle.dep_text.specs.Levels.{levels_of};

use crate::job::DepJob;
use std::marker::Model;

/// The jobs of a file, first to last. They are numbered from 0 in this order, and each names earlier ones alone.
#[derive(Debug, Drop)]
pub struct DepFile {
    jobs: Vec<DepJob>,
    // The level of each job.
    levels: Vec<u32>,
}

impl Model for DepFile {
    ghost use Rattle.std.specs.Prelude.{List};
    ghost use Rattle.dep_text.specs.declared.job.DepJob.{DepJob};
    ghost use Rattle.dep_text.specs.DepFile.{IsWhole};

    ghost Value = { List DepJob };

    ghost view = { λ f. f.jobs.items };

    ghost invariant = { λ f. IsWhole f.jobs.items f.levels.items };
}

impl DepFile {
    /// The file of these jobs, which have these levels.
    pub(crate) fn new(jobs: Vec<DepJob>, levels: Vec<u32>) -> Self
        requires ranges { IsDepFile jobs.items }
        requires leveled { levels.items ≡ levels_of jobs.items }
        ensures { result ≡ jobs.items }
    {
        DepFile { jobs, levels }
    }

    /// The jobs, first to last.
    pub fn jobs(&self) -> &[DepJob]
        ensures jobs { result.now ≡ self.now }
        ensures ranges { IsDepFile result.now }
    {
        self.jobs.as_slice()
    }

    /// The level of each job: 0 where it names no job, else one more than the greatest level of those that it names.
    pub fn levels(&self) -> &[u32]
        ensures { result.now ≡ levels_of self.now }
    {
        self.levels.as_slice()
    }
}
