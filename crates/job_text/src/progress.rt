// What the lines of a job file say, one after another.
ghost use Rattle.std.specs.Prelude.{◌≡◌, [], ◌∷◌, IfOk};

use crate::block::Block;
use crate::file::Unit;
use crate::job_words::{read_job, read_lane_job, read_only_lane};
use bq_model::{Items, OutOfMemory, TextCause, TextFault};
use job_work::Job;
use std::alloc::Global;
use std::marker::Model;
use text_lines::{LineReader, LineRefused, Words};

/// The most jobs of a unit.
const MOST_IN_UNIT: usize = 100;
/// The most jobs of a file.
const MOST_JOBS: usize = 1_000_000;

/// The units that are done, and the block that is open.
#[derive(Drop)]
pub(crate) struct Progress {
    alloc: Global,
    units: Vec<Unit>,
    // How many jobs the units have.
    count: u32,
    block: Option<Block>,
}

impl Model for Progress {
    ghost use Rattle.job_text.specs.Grammar.{LinesSay};
    ghost use Rattle.job_text.specs.Counted.{IsCounted};

    ghost Value = { LinesSay };

    ghost view = { λ p. record { units = p.units.items; block = p.block } };

    ghost invariant = { λ p. IsCounted p.units.items p.block p.count };
}

impl LineReader for Progress {
    ghost use Rattle.job_text.specs.Grammar.{meaning};

    ghost meaning = { meaning };

    fn line(&mut self, number: u32, words: Words) -> Result<(), LineRefused> {
        match self.block.take() {
            Some(block) => self.inside(block, words),
            None => self.outside(number, words),
        }
    }
}

impl Progress {
    ghost use Rattle.std.specs.Prelude.{◌+◌, ◌≤◌, ◌++◌, length, None, OnOk, MatchResult, Ok, Err};
    ghost use Rattle.text_lines.specs.Refusals.{ReadsLine};
    ghost use Rattle.job_text.specs.JobFile.{job_count, most_jobs};
    ghost use Rattle.job_text.specs.Grammar.{nothing_yet, outside, inside, open_block, add_job, put_job, unit_of, units_at_end};

    /// Before the first line.
    pub(crate) fn new(alloc: Global) -> Self
        ensures { result ≡ nothing_yet }
    {
        Progress {
            alloc,
            units: Vec::new(alloc),
            count: 0,
            block: None,
        }
    }

    fn outside(&mut self, number: u32, mut words: Words) -> Result<(), LineRefused>
        requires { self.old.block ≡ None }
        ensures { ReadsLine (outside number self.old.units words.entry) result self.new }
    {
        let Some(word) = words.next() else {
            return Err(LineRefused::Cause(TextCause::BadWord));
        };
        if word == b"job".as_slice() {
            let (lane, job) = read_lane_job(self.alloc, words)?;
            self.add_job(lane, job)
        } else if word == b"block".as_slice() {
            self.open_block(number, words)
        } else {
            Err(LineRefused::Cause(TextCause::BadWord))
        }
    }

    fn open_block(&mut self, line: u32, words: Words) -> Result<(), LineRefused>
        requires { self.old.block ≡ None }
        ensures { ReadsLine (open_block line self.old.units words.entry) result self.new }
    {
        match read_only_lane(words) {
            Ok(lane) => {
                self.block = Some(Block {
                    line,
                    lane,
                    jobs: Items::new(self.alloc),
                });
                Ok(())
            }
            Err(cause) => Err(LineRefused::Cause(cause)),
        }
    }

    fn add_job(&mut self, lane: u32, job: Job) -> Result<(), LineRefused>
        requires { self.old.block ≡ None }
        ensures { ReadsLine (add_job self.old.units (lane, job)) result self.new }
    {
        if self.count as usize >= MOST_JOBS {
            return Err(LineRefused::Cause(TextCause::TooMany));
        }
        let jobs = one_job(self.alloc, job)?;
        self.add_unit(lane, jobs)?;
        Ok(())
    }

    // Appends a unit of these jobs, if there are any.
    fn add_unit(&mut self, lane: u32, jobs: Items<Job>) -> Result<(), OutOfMemory>
        requires closed { self.old.block ≡ None }
        requires few { job_count self.old.units + length jobs ≤ most_jobs }
        ensures { OnOk result (self.new ≡ record { units = self.old.units ++ unit_of lane jobs; block = None }) }
    {
        if jobs.is_empty() {
            return Ok(());
        }
        let more = jobs.len() as u32;
        self.units.push(Unit { lane, jobs })?;
        self.count += more;
        Ok(())
    }

    fn inside(&mut self, block: Block, mut words: Words) -> Result<(), LineRefused>
        requires closed { self.old.block ≡ None }
        requires few { job_count self.old.units + length block.jobs ≤ most_jobs }
        ensures { ReadsLine (inside self.old.units block words.entry) result self.new }
    {
        let Some(word) = words.next() else {
            return Err(LineRefused::Cause(TextCause::BadWord));
        };
        if word == b"put".as_slice() {
            let job = read_job(self.alloc, words)?;
            self.put_job(block, job)
        } else if word == b"end".as_slice() && words.next().is_none() {
            self.add_unit(block.lane, block.jobs)?;
            Ok(())
        } else {
            Err(LineRefused::Cause(TextCause::BadWord))
        }
    }

    fn put_job(&mut self, mut block: Block, job: Job) -> Result<(), LineRefused>
        requires closed { self.old.block ≡ None }
        requires few { job_count self.old.units + length block.jobs ≤ most_jobs }
        ensures { ReadsLine (put_job self.old.units block job) result self.new }
    {
        if block.jobs.len() >= MOST_IN_UNIT {
            return Err(LineRefused::Cause(TextCause::BlockTooLong));
        }
        if self.count as usize + block.jobs.len() >= MOST_JOBS {
            return Err(LineRefused::Cause(TextCause::TooMany));
        }
        block.jobs.push(job)?;
        self.block = Some(block);
        Ok(())
    }

    /// The units, where the text ends here. An open block is a fault at its first line.
    pub(crate) fn end(self) -> Result<Vec<Unit>, TextFault>
        ensures { MatchResult result (λ units. units_at_end self.units self.block ≡ Ok units.items) (λ fault. units_at_end self.units self.block ≡ Err fault) }
    {
        let Progress { units, block, .. } = self;
        match block {
            Some(block) => Err(TextFault {
                line: block.line,
                cause: TextCause::OpenBlock,
            }),
            None => Ok(units),
        }
    }
}

// A list of one job, with no room for more.
fn one_job(alloc: Global, job: Job) -> Result<Items<Job>, OutOfMemory>
    ensures { IfOk result (λ jobs. jobs ≡ job ∷ []) }
{
    Ok(Items::from(vec![in alloc; job]?))
}
