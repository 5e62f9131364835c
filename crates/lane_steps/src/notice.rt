// The words of an announcement as what it says.
ghost use Rattle.std.specs.Prelude.{◌≡◌};
ghost use Rattle.lane_steps.specs.Notices.{field_in, dummy_of, dummy_in, chain_end_in, counts_in, number_in, order_in, with_field, blank};

use crate::point::Notice;
use excess_count::Counts;
use word_rows::{AnnField, BatchNumber, Content, HeadWord, Place};

impl Notice {
    /// The word of a field, as it is written before the announcement is installed.
    pub fn field(self, field: AnnField) -> Content
        ensures { result ≡ field_in self field }
    {
        match field {
            AnnField::OldHead => Content::OfHead(HeadWord::Node(self.old_head)),
            AnnField::OldTail => Content::OfOldTail(None),
            AnnField::First => Content::OfChainEnd(self.first),
            AnnField::Last => Content::OfChainEnd(self.last),
            AnnField::Counts => Content::OfCounts(self.counts),
            AnnField::BatchNo => Content::OfBatchNo(self.number),
            AnnField::Order0 => Content::OfOrder(self.order0),
            AnnField::Order1 => Content::OfOrder(self.order1),
            AnnField::Order2 => Content::OfOrder(self.order2),
            AnnField::Order3 => Content::OfOrder(self.order3),
        }
    }
}

// The dummy that a head word names, of an announcement that names none a place of no meaning.
fn dummy_of(head: HeadWord) -> Place
    ensures { result ≡ dummy_of head }
{
    match head {
        HeadWord::Node(dummy) => dummy,
        HeadWord::Ann { .. } => Place { row: 0, count: 0 },
    }
}

/// What was found in OldHead.
pub fn dummy_in(found: Content) -> Place
    ensures { result ≡ dummy_in found }
{
    match found {
        Content::OfHead(head) => dummy_of(head),
        _ => Place { row: 0, count: 0 },
    }
}

/// What was found in First or Last.
pub fn chain_end_in(found: Content) -> u32
    ensures { result ≡ chain_end_in found }
{
    match found {
        Content::OfChainEnd(row) => row,
        _ => 0,
    }
}

/// What was found in Counts.
pub fn counts_in(found: Content) -> Counts
    ensures { result ≡ counts_in found }
{
    match found {
        Content::OfCounts(counts) => counts,
        _ => Counts {
            enqs: 0,
            deqs: 0,
            excess: 0,
        },
    }
}

// What was found in BatchNo.
fn number_in(found: Content) -> BatchNumber
    ensures { result ≡ number_in found }
{
    match found {
        Content::OfBatchNo(number) => number,
        _ => BatchNumber {
            batch: 0,
            caller: 0,
        },
    }
}

// What was found in Order0 to Order3.
fn order_in(found: Content) -> u64
    ensures { result ≡ order_in found }
{
    match found {
        Content::OfOrder(bits) => bits,
        _ => 0,
    }
}

impl Notice {
    /// What an announcement says that was never written.
    pub fn blank() -> Notice
        ensures { result ≡ blank }
    {
        Notice {
            old_head: Place { row: 0, count: 0 },
            first: 0,
            last: 0,
            counts: Counts {
                enqs: 0,
                deqs: 0,
                excess: 0,
            },
            number: BatchNumber {
                batch: 0,
                caller: 0,
            },
            order0: 0,
            order1: 0,
            order2: 0,
            order3: 0,
        }
    }

    /// What an announcement says after a store into this field; OldTail is none of what it says.
    pub fn with_field(self, field: AnnField, content: Content) -> Notice
        ensures { result ≡ with_field self field content }
    {
        let mut notice = self;
        match field {
            AnnField::OldHead => notice.old_head = dummy_in(content),
            AnnField::OldTail => {}
            AnnField::First => notice.first = chain_end_in(content),
            AnnField::Last => notice.last = chain_end_in(content),
            AnnField::Counts => notice.counts = counts_in(content),
            AnnField::BatchNo => notice.number = number_in(content),
            AnnField::Order0 => notice.order0 = order_in(content),
            AnnField::Order1 => notice.order1 = order_in(content),
            AnnField::Order2 => notice.order2 = order_in(content),
            AnnField::Order3 => notice.order3 = order_in(content),
        }
        notice
    }
}
