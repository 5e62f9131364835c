// A file of jobs: its units, and beside them where each begins.
ghost use Rattle.std.specs.Prelude.{◌≡◌, ◌≤◌, ◌<◌, ℕ, length, slice_index, option_map, IfOk, IsNone, ◌↔◌};
ghost use Rattle.std.specs.Bool.{Decides};
ghost use Rattle.job_text.specs.JobFile.{IsJobFile, job_count, job_at};

use crate::same::are_same;
use bq_model::{Items, OutOfMemory};
use job_work::Job;
use std::alloc::Global;
use std::marker::Model;

/// Jobs that stay together, and the lane that they take.
#[derive(Debug, Drop)]
pub struct Unit {
    /// The number of the lane.
    pub lane: u32,
    /// The jobs, first to last.
    pub jobs: Items<Job>,
}

/// The units of a job file, first to last. Its jobs are numbered from 0 in this order.
#[derive(Debug, Drop)]
pub struct JobFile {
    units: Vec<Unit>,
    // The number of the first job of each unit.
    starts: Vec<u32>,
    count: u32,
}

impl Model for JobFile {
    ghost use Rattle.std.specs.Prelude.{List, ◌≡◌};
    ghost use Rattle.job_text.specs.declared.file.Unit.{Unit};
    ghost use Rattle.job_text.specs.JobFile.{IsWhole};

    ghost Value = { List Unit };

    ghost view = { λ f. f.units.items };

    ghost invariant = { λ f. IsWhole f.units.items f.starts.items f.count };
}

impl JobFile {
    /// The file of these units.
    pub fn new(alloc: Global, units: Vec<Unit>) -> Result<Self, OutOfMemory>
        requires { IsJobFile units.items }
        ensures { IfOk result (λ file. file ≡ units.items) }
    {
        let mut starts = Vec::with_capacity(alloc, units.len())?;
        let mut count = 0;
        for unit in &units {
            starts.push(count)?;
            count += unit.jobs.len() as u32;
        }
        Ok(JobFile {
            units,
            starts,
            count,
        })
    }

    /// The units, first to last.
    pub fn units(&self) -> &[Unit]
        ensures { result.now ≡ self.now }
    {
        self.units.as_slice()
    }

    /// How many jobs there are.
    pub fn count(&self) -> u32
        ensures count { result ≡ job_count self.now }
        ensures ranges { IsJobFile self.now }
    {
        self.count
    }

    /// The job of this number, with the lane of its unit. None beyond the last job.
    pub fn at(&self, number: u32) -> Option<(u32, &Job)>
        ensures job { option_map (λ found. (found.0, found.1.now)) result ≡ job_at self.now number }
        ensures none_beyond_the_last { IsNone result ↔ (job_count self.now ≤ number) }
    {
        if number >= self.count {
            return None;
        }
        let index = unit_at(&self.starts, number);
        let unit = &self.units[index];
        let place = number - self.starts[index];
        Some((unit.lane, &unit.jobs.as_slice()[place as usize]))
    }

    /// Whether the other file has the same units.
    pub fn is_same(&self, other: &JobFile) -> bool
        ensures { Decides result (self.now ≡ other.now) }
    {
        are_same(self.units(), other.units())
    }
}

// The last start that is not above the number.
fn unit_at(starts: &[u32], number: u32) -> usize
    requires some { 0 < length starts.now }
    requires first { slice_index starts.now 0 ≤ number }
    requires rising { (i j : ℕ) → i ≤ j → j < length starts.now → slice_index starts.now i ≤ slice_index starts.now j }
    ensures within { result < length starts.now }
    ensures reached { slice_index starts.now result ≤ number }
    ensures last { (k : ℕ) → result < k → k < length starts.now → number < slice_index starts.now k }
{
    starts.partition_point(|start| *start <= number) - 1
}
