// What an announced batch gets and links, by its counts, as the usual ways reckon it.
ghost use Rattle.std.specs.Prelude.{◌≡◌, ◌+◌, ◌-◌, ◌<◌, ◌^◌, ◌==◌, nat_lt, nat_le};
ghost use Rattle.excess_count.specs.Counts.{successes_of};
ghost use Rattle.lane_steps.specs.Act.{far_behind};
ghost use Rattle.lane_steps.specs.Help.{before_it, has_enough};
ghost use Rattle.lane_steps.specs.Stopper.{is_stopped, linked_rows};

use excess_count::Counts;
use lane_steps::{Help, Plan};
use word_rows::Place;

/// How many values it gets, where so many are queued.
#[inline(always)]
pub fn gets(counts: Counts, queued: u64) -> u32
    ensures { result ≡ successes_of counts queued }
{
    let missing = u64::from(counts.excess).saturating_sub(queued);
    u64::from(counts.deqs).saturating_sub(missing) as u32
}

/// Whether it links its stopper, where so many values are queued.
#[inline(always)]
pub fn is_stopped(counts: Counts, queued: u64) -> bool
    ensures { result ≡ is_stopped counts queued }
{
    counts.enqs == 0 && queued < u64::from(counts.deqs)
}

/// How many rows it links, where so many values are queued.
#[inline(always)]
pub fn linked_rows(counts: Counts, queued: u64) -> u32
    ensures { result ≡ linked_rows counts queued }
{
    if is_stopped(counts, queued) {
        1
    } else {
        counts.enqs
    }
}

/// Whether it links rows, where so many values are queued.
#[inline(always)]
pub fn links_rows(counts: Counts, queued: u64) -> bool
    ensures { result ≡ nat_lt 0 (linked_rows counts queued) }
{
    0 < linked_rows(counts, queued)
}

/// Whether its chain begins with this row.
#[inline(always)]
pub fn begins_with(help: &Help, row: u32) -> bool
    ensures { result ≡ (row == help.now.first) }
{
    row == help.first
}

/// Whether this tail isn't before the last of its values, where it is of dequeues alone.
#[inline(always)]
pub fn is_behind(plan: &Plan, tail: Place) -> bool
    ensures { result ≡ nat_le plan.now.notice.counts.deqs (tail.count - plan.now.notice.old_head.count) }
{
    let passed = tail.count.saturating_sub(plan.notice.old_head.count);
    u64::from(plan.notice.counts.deqs) <= passed
}

/// How many values are queued before it, by this old tail.
#[inline(always)]
pub fn before_it(help: &Help, old_tail: Place) -> u64
    ensures { result ≡ before_it help.now old_tail }
{
    old_tail.count.saturating_sub(help.old_head.count)
}

/// Whether it is of dequeues alone and finds enough values before this tail.
#[inline(always)]
pub fn has_enough(help: &Help, tail: Place) -> bool
    ensures { result ≡ has_enough help.now tail }
{
    help.counts.enqs == 0 && u64::from(help.counts.deqs) <= before_it(help, tail)
}

/// The place of a row that lies so many rows behind another.
#[inline(always)]
pub fn far_behind(place: Place, row: u32, more: u32) -> Place
    requires { place.count + more < 2 ^ 44 }
    ensures { result ≡ far_behind place row more }
{
    Place {
        row,
        count: place.count + u64::from(more),
    }
}
