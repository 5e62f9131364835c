// What a word of a lane holds, whichever it is.
ghost use Rattle.std.specs.Prelude.{◌≡◌};
ghost use Rattle.word_rows.specs.ReadsBack.{ReadsBack};
ghost use Rattle.word_rows.specs.Fits.{coding_limits};
ghost use Rattle.word_rows.specs.Contents.{coded, Fits, CanCodeField, CanCode};

use crate::batch_words::{BatchNumber, pack_counts, unpack_counts};
use crate::hazard::{pack_hazard, unpack_hazard};
use crate::head_word::HeadWord;
use crate::link_word::LinkWord;
use crate::location::{AnnField, Location};
use crate::marks::Marks;
use crate::old_tail::{pack_old_tail, unpack_old_tail};
use crate::packing::NUMBERS;
use crate::place::Place;
use excess_count::Counts;

/// What a word of a lane holds.
#[derive(Clone, Copy, Debug, PartialEq, Eq, Hash)]
pub enum Content {
    /// Of HEAD, and of an announcement's OldHead.
    OfHead(HeadWord),
    /// Of TAIL.
    OfTail(Place),
    /// Of the LINK of a row.
    OfLink(LinkWord),
    /// Of the VALUE of a row.
    OfValue(u64),
    /// Of the MARK of a row.
    OfMark(Marks),
    /// Of a caller's NODE_HAZARD: the row that it holds.
    OfNodeHazard(Option<u32>),
    /// Of a caller's ANN_HAZARD: the announcement that it holds.
    OfAnnHazard(Option<u32>),
    /// Of OldTail; `None` while it isn't known.
    OfOldTail(Option<Place>),
    /// Of First and Last: the number of a row.
    OfChainEnd(u32),
    /// Of Counts.
    OfCounts(Counts),
    /// Of BatchNo.
    OfBatchNo(BatchNumber),
    /// Of Order0 to Order3: bit k is set where operation k of the word's 64 is an enqueue.
    OfOrder(u64),
}

impl Content {
    /// The content as the word that stands in the table.
    #[inline(always)]
    pub fn pack(self) -> u64
        requires { Fits coding_limits self }
        ensures { result ≡ coded self }
    {
        match self {
            Content::OfHead(word) => word.pack(),
            Content::OfTail(place) => place.pack(),
            Content::OfLink(link) => link.pack(),
            Content::OfValue(value) => value,
            Content::OfMark(marks) => marks.pack(),
            Content::OfNodeHazard(row) => pack_hazard(row),
            Content::OfAnnHazard(ann) => pack_hazard(ann),
            Content::OfOldTail(place) => pack_old_tail(place),
            Content::OfChainEnd(row) => u64::from(row),
            Content::OfCounts(counts) => pack_counts(counts),
            Content::OfBatchNo(number) => number.pack(),
            Content::OfOrder(bits) => bits,
        }
    }

    /// The content that the word has at this location.
    #[inline(always)]
    pub fn unpack(location: Location, word: u64) -> Option<Content>
        ensures { ReadsBack (CanCode location) coded word result }
    {
        match location {
            Location::Head => Some(Content::OfHead(HeadWord::unpack(word)?)),
            Location::Tail => Some(Content::OfTail(Place::unpack(word)?)),
            Location::Link { .. } => Some(Content::OfLink(LinkWord::unpack(word)?)),
            Location::Value { .. } => Some(Content::OfValue(word)),
            Location::Mark { .. } => Some(Content::OfMark(Marks::unpack(word)?)),
            Location::NodeHazard { .. } => Some(Content::OfNodeHazard(unpack_hazard(word)?)),
            Location::AnnHazard { .. } => Some(Content::OfAnnHazard(unpack_hazard(word)?)),
            Location::AnnWord { field, .. } => unpack_field(field, word),
        }
    }
}

/// The content that the word has in this field of an announcement.
#[inline(always)]
fn unpack_field(field: AnnField, word: u64) -> Option<Content>
    ensures { ReadsBack (CanCodeField field) coded word result }
{
    match field {
        AnnField::OldHead => Some(Content::OfHead(HeadWord::unpack(word)?)),
        AnnField::OldTail => Some(Content::OfOldTail(unpack_old_tail(word)?)),
        AnnField::First | AnnField::Last => unpack_chain_end(word),
        AnnField::Counts => Some(Content::OfCounts(unpack_counts(word)?)),
        AnnField::BatchNo => Some(Content::OfBatchNo(BatchNumber::unpack(word))),
        AnnField::Order0 | AnnField::Order1 | AnnField::Order2 | AnnField::Order3 => {
            Some(Content::OfOrder(word))
        }
    }
}

/// The row that the word of a chain's end names.
#[inline(always)]
fn unpack_chain_end(word: u64) -> Option<Content>
    ensures { ReadsBack (CanCodeField AnnField.First) coded word result }
{
    if word < NUMBERS {
        Some(Content::OfChainEnd(word as u32))
    } else {
        None
    }
}
