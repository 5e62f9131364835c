// What a batch gets and links, by its counts.
ghost use Rattle.std.specs.Prelude.{◌≡◌};
ghost use Rattle.excess_count.specs.Counts.{successes_of};
ghost use Rattle.lane_steps.specs.Help.{before_it, has_enough};
ghost use Rattle.lane_steps.specs.Stopper.{is_stopped, linked_rows};

use crate::point::Help;
use excess_count::Counts;
use word_rows::Place;

/// How many values a batch with these counts gets, where so many are queued.
pub fn gets(counts: Counts, queued: u64) -> u32
    ensures { result ≡ successes_of counts queued }
{
    let missing = u64::from(counts.excess).saturating_sub(queued);
    u64::from(counts.deqs).saturating_sub(missing) as u32
}

/// Whether a batch with these counts links its stopper, where so many values are queued.
pub fn is_stopped(counts: Counts, queued: u64) -> bool
    ensures { result ≡ is_stopped counts queued }
{
    counts.enqs == 0 && queued < u64::from(counts.deqs)
}

/// How many rows a batch with these counts links, where so many values are queued.
pub fn linked_rows(counts: Counts, queued: u64) -> u32
    ensures { result ≡ linked_rows counts queued }
{
    if is_stopped(counts, queued) {
        1
    } else {
        counts.enqs
    }
}

/// How many values are queued before the batch, by this old tail.
pub fn before_it(help: Help, old_tail: Place) -> u64
    ensures { result ≡ before_it help old_tail }
{
    old_tail.count.saturating_sub(help.old_head.count)
}

/// Whether the batch is of dequeues alone and finds enough values before this tail.
pub fn has_enough(help: Help, tail: Place) -> bool
    ensures { result ≡ has_enough help tail }
{
    help.counts.enqs == 0 && u64::from(help.counts.deqs) <= before_it(help, tail)
}
