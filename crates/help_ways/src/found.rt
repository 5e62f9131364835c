// What a step found in its word, as the usual ways of the calls read it.
ghost use Rattle.std.specs.Prelude.{◌≡◌};
ghost use Rattle.lane_steps.specs.Act.{same_content, same_place, is_node};
ghost use Rattle.lane_steps.specs.Notices.{dummy_in, chain_end_in, counts_in};
ghost use Rattle.lane_steps.specs.State.{link_in, head_in};
ghost use Rattle.help_ways.specs.Found.{row_behind};

use excess_count::Counts;
use lane_steps::{head_in, link_in};
use word_rows::{Content, HeadWord, LinkWord, Place};

/// Whether it found this.
#[inline(always)]
pub fn is_same(found: Content, expected: Content) -> bool
    ensures { result ≡ same_content found expected }
{
    found == expected
}

/// Whether it is this place.
#[inline(always)]
pub fn is_place(found: Place, place: Place) -> bool
    ensures { result ≡ same_place found place }
{
    found == place
}

/// Whether HEAD names this dummy.
#[inline(always)]
pub fn is_dummy(found: Content, dummy: Place) -> bool
    ensures { result ≡ is_node (head_in found) dummy }
{
    head_in(found) == HeadWord::Node(dummy)
}

/// The row to which the link that was found leads.
#[inline(always)]
pub fn row_in(found: Content) -> Option<u32>
    ensures { result ≡ row_behind (link_in found) }
{
    match link_in(found) {
        LinkWord::Single(row) | LinkWord::Chain(row) => Some(row),
        LinkWord::Nil | LinkWord::Shut => None,
    }
}

/// What was found in OldHead of an announcement.
#[inline(always)]
pub fn dummy_in(found: Content) -> Place
    ensures { result ≡ dummy_in found }
{
    match found {
        Content::OfHead(HeadWord::Node(dummy)) => dummy,
        _ => Place { row: 0, count: 0 },
    }
}

/// What was found in First or Last of an announcement.
#[inline(always)]
pub fn chain_end_in(found: Content) -> u32
    ensures { result ≡ chain_end_in found }
{
    match found {
        Content::OfChainEnd(row) => row,
        _ => 0,
    }
}

/// What was found in Counts of an announcement.
#[inline(always)]
pub fn counts_in(found: Content) -> Counts
    ensures { result ≡ counts_in found }
{
    match found {
        Content::OfCounts(counts) => counts,
        _ => Counts {
            enqs: 0,
            deqs: 0,
            excess: 0,
        },
    }
}
