// The jobs of one level as a file of their own.
ghost use Rattle.std.specs.Prelude.{◌≡◌, ◌<◌, ◌≤◌, ◌∷◌, [], length, IfOk, All};
ghost use Rattle.job_text.specs.JobFile.{AreBytes};
ghost use Rattle.dep_text.specs.DepFile.{IsDepFile, most_dep_jobs};
ghost use Rattle.dep_jobs.specs.LevelFile.{units_for};

use crate::resolve::resolved;
use bq_model::{Items, OutOfMemory, Text};
use dep_text::DepJob;
use job_text::{JobFile, Unit};
use job_work::Job;
use std::alloc::Global;

/// The file of the jobs of these numbers, each a unit of its own, where the jobs have these answers.
pub(crate) fn level_file(
    alloc: Global,
    jobs: &[DepJob],
    texts: &[Text],
    numbers: &[u32],
) -> Result<JobFile, OutOfMemory>
    requires ranges { IsDepFile jobs.now }
    requires bytes { All AreBytes texts.now }
    requires few { length numbers.now ≤ most_dep_jobs }
    requires within { All (λ number. number < length jobs.now) numbers.now }
    ensures { IfOk result (λ file. file ≡ units_for texts.now jobs.now numbers.now) }
{
    let units = level_units(alloc, jobs, texts, numbers)?;
    JobFile::new(alloc, units)
}

fn level_units(
    alloc: Global,
    jobs: &[DepJob],
    texts: &[Text],
    numbers: &[u32],
) -> Result<Vec<Unit>, OutOfMemory>
    requires { All (λ number. number < length jobs.now) numbers.now }
    ensures { IfOk result (λ units. units.items ≡ units_for texts.now jobs.now numbers.now) }
{
    let mut units = Vec::with_capacity(alloc, numbers.len())?;
    for number in numbers {
        let job = &jobs[*number as usize];
        let work = resolved(alloc, &job.work, texts)?;
        let unit = one_job(alloc, job.lane, work)?;
        units.push(unit)?;
    }
    Ok(units)
}

// A unit of one job.
fn one_job(alloc: Global, lane: u32, job: Job) -> Result<Unit, OutOfMemory>
    ensures { IfOk result (λ unit. unit ≡ record { lane = lane; jobs = job ∷ [] }) }
{
    let jobs = Items::from(vec![in alloc; job]?);
    Ok(Unit { lane, jobs })
}
