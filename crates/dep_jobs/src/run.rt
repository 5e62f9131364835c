// The run of a file level by level, by hands beside each other.
ghost use Rattle.std.specs.Prelude.{◌≡◌, ◌≤◌, map, IfOk};
ghost use Rattle.std.specs.List.{AllZip, range_with_len};
ghost use Rattle.bulk_dispatcher.specs.Ran.{JobsRan};
ghost use Rattle.dep_text.specs.Levels.{levels_of, depth_of};
ghost use Rattle.dep_jobs.specs.Answers.{answers_of};
ghost use Rattle.dep_jobs.specs.LevelFile.{level_of};

use crate::level_file::level_file;
use crate::levels::numbers_by_level;
use crate::texts::{no_texts, put_texts};
use bq_model::{Lane, OutOfMemory, Text};
use bulk_dispatcher::{Done, Gate, run_hands};
use dep_text::DepFile;
use std::alloc::Global;
use std::thread::Threads;

/// What the run of a file leaves.
#[derive(Drop)]
pub struct DepDone<L: Lane> {
    /// The answer of each job, in file order.
    pub texts: Vec<Text>,
    /// What the run of each level left, from level 0 on.
    pub rounds: Vec<Done<L>>,
}

/// Runs the jobs of a file level by level, each level by so many hands that make so many dequeues as one once they have
/// put their jobs. An answer is put where later jobs name it.
pub fn run_deps<L: Lane, G: Gate, R: Threads + Sync>(
    rt: &R,
    alloc: Global,
    file: &DepFile,
    hands: u32,
    batch: u32,
    gate: &G,
) -> Result<DepDone<L>, OutOfMemory>
    requires hands { (1 ≤ hands) × (hands ≤ 16) }
    requires batch { (1 ≤ batch) × (batch ≤ 256) }
    ensures texts { IfOk result (λ done. done.texts.items ≡ answers_of file.now) }

    // There is one round for each level, and it is a run of the file of this level.
    ensures rounds { IfOk result (λ done. AllZip (λ level round. JobsRan (level_of file.now level) hands batch (map L.history round.books) round.replies)
        (range_with_len 0 (depth_of (levels_of file.now))) done.rounds.items) }
{
    let jobs = file.jobs();
    let numbers = numbers_by_level(alloc, file.levels())?;
    let mut texts = no_texts(alloc, jobs.len())?;
    let mut rounds = Vec::with_capacity(alloc, numbers.len())?;
    for on_level in &numbers {
        let on_level = on_level.as_slice();
        let level = level_file(alloc, jobs, &texts, on_level)?;
        let round = run_hands(rt, alloc, &level, hands, batch, gate)?;
        put_texts(alloc, &mut texts, on_level, round.replies.as_slice())?;
        rounds.push(round)?;
    }
    Ok(DepDone { texts, rounds })
}
