// The level of a job, by those of the jobs that it names.
ghost use Rattle.std.specs.Prelude.{◌≡◌, ◌<◌, ◌≤◌, ◌+◌, All, map, slice_index};
ghost use Rattle.dep_text.specs.Levels.{most_levels, greatest, arg_level, piece_level, level_behind};

use crate::job::{Arg, DepWork, Piece};

/// The level of work behind jobs of these levels: 0 where it names none of them, else one more than the greatest level
/// of those that it names.
pub(crate) fn level_behind(levels: &[u32], work: &DepWork) -> u32
    requires { All (λ level. level < most_levels) levels.now }
    ensures { result ≡ level_behind levels.now work.now }
{
    match work {
        DepWork::Sum(args) => greatest_level(levels, args.as_slice()),
        DepWork::Digest(bytes) | DepWork::Count { bytes, .. } => piece_level(levels, bytes),
        DepWork::Mix { start, .. } => arg_level(levels, *start),
        DepWork::Words(_) => 0,
    }
}

fn greatest_level(levels: &[u32], args: &[Arg]) -> u32
    requires { All (λ level. level < most_levels) levels.now }
    ensures { result ≡ greatest (map (arg_level levels.now) args.now) }
{
    let mut level = 0u32;
    for arg in args {
        level = level.max(arg_level(levels, *arg));
    }
    level
}

fn arg_level(levels: &[u32], arg: Arg) -> u32
    requires { All (λ level. level < most_levels) levels.now }
    ensures { result ≡ arg_level levels.now arg }
{
    match arg {
        Arg::Number(_) => 0,
        Arg::Of(job) => above(levels, job),
    }
}

fn piece_level(levels: &[u32], piece: &Piece) -> u32
    requires { All (λ level. level < most_levels) levels.now }
    ensures { result ≡ piece_level levels.now piece.now }
{
    match piece {
        Piece::Plain(_) => 0,
        Piece::Of(job) => above(levels, *job),
    }
}

// The level above that of a job.
fn above(levels: &[u32], job: u32) -> u32
    requires { All (λ level. level < most_levels) levels.now }
    ensures level { result ≡ slice_index levels.now job + 1 }
    ensures low { result ≤ most_levels }
{
    match levels.get(job as usize) {
        Some(level) => *level + 1,
        None => 1,
    }
}
