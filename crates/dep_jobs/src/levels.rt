// The numbers of the jobs of each level.
ghost use Rattle.std.specs.Prelude.{◌≡◌, ◌<◌, ◌≤◌, [], ◌∷◌, ◌++◌, length, map, All, IfOk, OnOk, replicate, slice_index_or, slice_set};
ghost use Rattle.std.specs.List.{range_with_len};
ghost use Rattle.dep_text.specs.DepFile.{most_dep_jobs};
ghost use Rattle.dep_text.specs.Levels.{most_levels, depth_of};
ghost use Rattle.dep_jobs.specs.LevelFile.{numbers_on};

use bq_model::{Items, OutOfMemory};
use std::alloc::Global;

/// For each level the numbers of its jobs, by rising number, where jobs have these levels.
pub(crate) fn numbers_by_level(
    alloc: Global,
    levels: &[u32],
) -> Result<Vec<Items<u32>>, OutOfMemory>
    requires few { length levels.now ≤ most_dep_jobs }
    requires low { All (λ level. level < most_levels) levels.now }
    ensures { IfOk result (λ found. found.items ≡ map (numbers_on levels.now) (range_with_len 0 (depth_of levels.now))) }
{
    let mut numbers = no_numbers(alloc, depth(levels))?;
    for (number, level) in levels.iter().enumerate() {
        add_number(&mut numbers, *level, number as u32)?;
    }
    Ok(numbers)
}

// How many levels there are.
fn depth(levels: &[u32]) -> u32
    requires { All (λ level. level < most_levels) levels.now }
    ensures { result ≡ depth_of levels.now }
{
    let mut depth = 0u32;
    for level in levels {
        depth = depth.max(*level + 1);
    }
    depth
}

fn no_numbers(alloc: Global, depth: u32) -> Result<Vec<Items<u32>>, OutOfMemory>
    ensures { IfOk result (λ numbers. numbers.items ≡ replicate depth []) }
{
    let mut numbers = Vec::with_capacity(alloc, depth as usize)?;
    for _level in 0..depth {
        numbers.push(Items::new(alloc))?;
    }
    Ok(numbers)
}

// One number more on a level.
fn add_number(numbers: &mut Vec<Items<u32>>, level: u32, number: u32) -> Result<(), OutOfMemory>
    requires { level < length numbers.old.items }
    ensures { OnOk result (numbers.new.items ≡ slice_set numbers.old.items level (slice_index_or numbers.old.items level [] ++ number ∷ [])) }
{
    numbers[level as usize].push(number)?;
    Ok(())
}
