// What a step finds in its word.
ghost use Rattle.std.specs.Prelude.{◌≡◌, ◌+◌, ◌<◌, ◌^◌};
ghost use Rattle.lane_steps.specs.State.{head_in, tail_in, link_in, value_in, old_tail_in, hazard_in, mark_in};
ghost use Rattle.lane_steps.specs.Act.{behind, far_behind};

use word_rows::{Content, HeadWord, LinkWord, Marks, Place};

/// What was found in HEAD.
#[inline(always)]
pub fn head_in(found: Content) -> HeadWord
    ensures { result ≡ head_in found }
{
    match found {
        Content::OfHead(head) => head,
        _ => HeadWord::Ann { ann: 0, count: 0 },
    }
}

/// What was found in TAIL.
#[inline(always)]
pub fn tail_in(found: Content) -> Place
    ensures { result ≡ tail_in found }
{
    match found {
        Content::OfTail(tail) => tail,
        _ => Place { row: 0, count: 0 },
    }
}

/// What was found in the LINK of a row.
#[inline(always)]
pub fn link_in(found: Content) -> LinkWord
    ensures { result ≡ link_in found }
{
    match found {
        Content::OfLink(link) => link,
        _ => LinkWord::Nil,
    }
}

/// What was found in the VALUE of a row.
#[inline(always)]
pub fn value_in(found: Content) -> u64
    ensures { result ≡ value_in found }
{
    match found {
        Content::OfValue(value) => value,
        _ => 0,
    }
}

/// What was found in OldTail of an announcement.
#[inline(always)]
pub fn old_tail_in(found: Content) -> Option<Place>
    ensures { result ≡ old_tail_in found }
{
    match found {
        Content::OfOldTail(tail) => tail,
        _ => None,
    }
}

/// What was found in a hazard word of a caller.
#[inline(always)]
pub fn hazard_in(found: Content) -> Option<u32>
    ensures { result ≡ hazard_in found }
{
    match found {
        Content::OfNodeHazard(named) | Content::OfAnnHazard(named) => named,
        _ => None,
    }
}

/// What was found in the MARK of a row.
#[inline(always)]
pub fn mark_in(found: Content) -> Marks
    ensures { result ≡ mark_in found }
{
    match found {
        Content::OfMark(marks) => marks,
        _ => Marks {
            read: false,
            passed: false,
            free: false,
        },
    }
}

/// The place of a row that is linked right behind another.
#[inline(always)]
pub fn behind(place: Place, row: u32) -> Place
    requires { place.count < 2 ^ 44 }
    ensures { result ≡ behind place row }
{
    Place {
        row,
        count: place.count + 1,
    }
}

/// The place of a row that lies so many rows behind another.
#[inline(always)]
pub fn far_behind(place: Place, row: u32, more: u32) -> Place
    requires { place.count + more < 2 ^ 44 }
    ensures { result ≡ far_behind place row more }
{
    Place {
        row,
        count: place.count + u64::from(more),
    }
}
