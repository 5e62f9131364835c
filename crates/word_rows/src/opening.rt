// What the words of a lane hold at the beginning.
ghost use Rattle.std.specs.Prelude.{◌≡◌, ◌<◌};
ghost use Rattle.word_rows.specs.declared.location.Location.{Location};
ghost use Rattle.word_rows.specs.Sizes.{words_of};
ghost use Rattle.word_rows.specs.Layout.{IsValid, index_of};
ghost use Rattle.word_rows.specs.Contents.{coded, MayHold};
ghost use Rattle.word_rows.specs.Opening.{opening_of, opening_marks, opening_field};

use crate::batch_words::BatchNumber;
use crate::content::Content;
use crate::head_word::HeadWord;
use crate::link_word::LinkWord;
use crate::location::{AnnField, Location};
use crate::marks::Marks;
use crate::place::Place;
use bq_model::Shape;
use excess_count::Counts;

/// What the word holds when the lane is made: HEAD and TAIL name row 0, which is in the list, every other row is free,
/// and no old tail is known.
pub fn opening_content(shape: &Shape, location: Location) -> Content
    requires { IsValid shape.now location }
    ensures as_it_is_made { result ≡ opening_of shape.now location }
    ensures may_stand_there { MayHold shape.now location result }
{
    let first = Place {
        row: 0,
        count: shape.first_count(),
    };
    match location {
        Location::Head => Content::OfHead(HeadWord::Node(first)),
        Location::Tail => Content::OfTail(first),
        Location::Link { .. } => Content::OfLink(LinkWord::Nil),
        Location::Value { .. } => Content::OfValue(0),
        Location::Mark { row } => Content::OfMark(opening_marks(row)),
        Location::NodeHazard { .. } => Content::OfNodeHazard(None),
        Location::AnnHazard { .. } => Content::OfAnnHazard(None),
        Location::AnnWord { field, .. } => opening_field(field),
    }
}

/// The word of this number when the lane is made.
pub fn opening_word(shape: &Shape, index: u32) -> u64
    requires { index < words_of shape.now }
    ensures { (l : Location) → IsValid shape.now l → index_of shape.now l ≡ index
        → result ≡ coded (opening_of shape.now l) }
{
    let location = Location::at(shape, index).unwrap();
    opening_content(shape, location).pack()
}

/// The marks of a row when the lane is made.
fn opening_marks(row: u32) -> Marks
    ensures { result ≡ opening_marks row }
{
    Marks {
        read: true,
        passed: row != 0,
        free: row != 0,
    }
}

/// What the words of an announcement hold when the lane is made.
fn opening_field(field: AnnField) -> Content
    ensures { result ≡ opening_field field }
{
    match field {
        AnnField::OldHead => Content::OfHead(HeadWord::Node(Place { row: 0, count: 0 })),
        AnnField::OldTail => Content::OfOldTail(None),
        AnnField::First | AnnField::Last => Content::OfChainEnd(0),
        AnnField::Counts => Content::OfCounts(Counts {
            enqs: 0,
            deqs: 0,
            excess: 0,
        }),
        AnnField::BatchNo => Content::OfBatchNo(BatchNumber {
            batch: 0,
            caller: 0,
        }),
        AnnField::Order0 | AnnField::Order1 | AnnField::Order2 | AnnField::Order3 => {
            Content::OfOrder(0)
        }
    }
}
