// Words, indices and homes against values that were worked out by hand.
use crate::{
    AnnField, BatchNumber, Content, HeadWord, LinkWord, Location, Marks, Place, RowKind, home,
    items, opening_word, order_word, row_kind, rows, stoppers, words,
};
use bq_model::{Op, Shape};
use excess_count::Counts;
use std::process::Abort;

#[test]
fn places_and_links_are_coded_as_worked_out(rt: HostRuntime) {
    assert_eq!(rt; Place { row: 5, count: 9 }.pack(), 9437204);
    let last = Place {
        row: 262143,
        count: 17592186044415,
    };
    assert_eq!(rt; last.pack(), 18446744073709551612);
    let announced = HeadWord::Ann { ann: 5, count: 9 };
    assert_eq!(rt; announced.pack(), 9437205);
    assert_eq!(rt; LinkWord::Nil.pack(), 0);
    assert_eq!(rt; LinkWord::Single(5).pack(), 21);
    assert_eq!(rt; LinkWord::Chain(5).pack(), 22);
    assert_eq!(rt; LinkWord::Shut.pack(), 3);
    let ops = [Op::Deq, Op::Enq(8), Op::Deq, Op::Deq, Op::Enq(9)];
    assert_eq!(rt; order_word(&ops, 0), 18);
    assert_eq!(rt; order_word(&ops, 1), 0);
}

/// A word of an announcement.
fn field(field: AnnField) -> Location {
    Location::AnnWord { ann: 0, field }
}

/// The marks of a row.
fn marks(read: bool, passed: bool, free: bool) -> Marks {
    Marks { read, passed, free }
}

#[test]
fn words_are_read_as_worked_out(rt: HostRuntime) {
    let place = Place { row: 5, count: 9 };
    let link = Location::Link { row: 0 };
    let mark = Location::Mark { row: 0 };
    let hazard = Location::NodeHazard { caller: 0 };
    let counts = Counts {
        enqs: 2,
        deqs: 3,
        excess: 2,
    };
    let number = BatchNumber {
        batch: 3,
        caller: 1,
    };
    let rows = [
        (
            Location::Head,
            9437204,
            Some(Content::OfHead(HeadWord::Node(place))),
        ),
        (
            Location::Head,
            9437205,
            Some(Content::OfHead(HeadWord::Ann { ann: 5, count: 9 })),
        ),
        (Location::Head, 9437206, None),
        (Location::Tail, 9437204, Some(Content::OfTail(place))),
        (Location::Tail, 9437205, None),
        (link, 0, Some(Content::OfLink(LinkWord::Nil))),
        (link, 21, Some(Content::OfLink(LinkWord::Single(5)))),
        (link, 22, Some(Content::OfLink(LinkWord::Chain(5)))),
        (link, 3, Some(Content::OfLink(LinkWord::Shut))),
        (link, 20, None),
        (link, 7, None),
        (link, 1048577, None),
        (mark, 2, Some(Content::OfMark(marks(false, true, false)))),
        (mark, 4, Some(Content::OfMark(marks(false, false, true)))),
        (mark, 7, Some(Content::OfMark(marks(true, true, true)))),
        (mark, 8, None),
        (hazard, 0, Some(Content::OfNodeHazard(None))),
        (hazard, 6, Some(Content::OfNodeHazard(Some(5)))),
        (field(AnnField::OldTail), 3, Some(Content::OfOldTail(None))),
        (
            field(AnnField::OldTail),
            9437204,
            Some(Content::OfOldTail(Some(place))),
        ),
        (field(AnnField::Last), 5, Some(Content::OfChainEnd(5))),
        (
            field(AnnField::Counts),
            8590131202,
            Some(Content::OfCounts(counts)),
        ),
        (
            field(AnnField::BatchNo),
            97,
            Some(Content::OfBatchNo(number)),
        ),
        (field(AnnField::Order0), 18, Some(Content::OfOrder(18))),
    ];
    for (location, word, content) in rows {
        assert_eq!(rt; Content::unpack(location, word), content, "the word {word}");
    }
}

/// A shape that is within the limits.
fn shape_of(rt: &impl Abort, callers: u32, batch: u32, room: u32, first_count: u64) -> Shape {
    Shape::new(callers, batch, room, 100, first_count).expect(rt, "a shape")
}

#[test]
fn largest_lane_has_491254_words(rt: HostRuntime) {
    let shape = shape_of(&rt, 17, 256, 256, 0);
    assert_eq!(rt; items(&shape), 4915);
    assert_eq!(rt; stoppers(&shape), 4660);
    assert_eq!(rt; rows(&shape), 162776);
    assert_eq!(rt; words(&shape), 491254);
}

/// The word of this number at the beginning, where a lane has 79 rows and 4 announcements.
fn word_by_hand(number: u32, first: u64) -> u64 {
    match number {
        0 | 1 => first,
        4 => 1,
        7..=238 if number % 3 == 1 => 7,
        244 | 254 | 264 | 274 => 3,
        _ => 0,
    }
}

#[test]
fn lane_opens_with_these_words(rt: HostRuntime) {
    for (first_count, first) in [(0, 0), (9, 9437184)] {
        let shape = shape_of(&rt, 2, 4, 8, first_count);
        let end = words(&shape);
        assert_eq!(rt; end, 283);
        for number in 0..end {
            let word = opening_word(&shape, number);
            assert_eq!(rt; word, word_by_hand(number, first), "word {number}");
        }
    }
}

#[test]
fn words_and_rows_of_a_lane_of_two_callers(rt: HostRuntime) {
    let shape = shape_of(&rt, 2, 4, 8, 0);
    let places = [
        (1, Location::Tail),
        (236, Location::Link { row: 78 }),
        (237, Location::Value { row: 78 }),
        (238, Location::Mark { row: 78 }),
        (239, Location::NodeHazard { caller: 0 }),
        (242, Location::AnnHazard { caller: 1 }),
        (243, field(AnnField::OldHead)),
        (244, field(AnnField::OldTail)),
        (245, field(AnnField::First)),
        (246, field(AnnField::Last)),
        (247, field(AnnField::Counts)),
        (248, field(AnnField::BatchNo)),
        (249, field(AnnField::Order0)),
        (
            282,
            Location::AnnWord {
                ann: 3,
                field: AnnField::Order3,
            },
        ),
    ];
    for (index, location) in places {
        assert_eq!(rt;
            Location::at(&shape, index),
            Some(location),
            "index {index}"
        );
    }
    assert_eq!(rt; Location::at(&shape, 283), None);
    let kinds = [
        (0, RowKind::Dummy, None),
        (1, item(0, 0), Some(0)),
        (23, item(0, 22), Some(0)),
        (24, stopper(0, 0), Some(0)),
        (39, stopper(0, 15), Some(0)),
        (40, item(1, 0), Some(1)),
        (78, stopper(1, 15), Some(1)),
    ];
    for (row, kind, caller) in kinds {
        assert!(rt; row < rows(&shape));
        assert_eq!(rt; row_kind(&shape, row), kind, "row {row}");
        assert_eq!(rt; home(&shape, row), caller, "row {row}");
    }
}

/// An item row.
fn item(caller: u32, number: u32) -> RowKind {
    RowKind::Item { caller, number }
}

/// A stopper row.
fn stopper(caller: u32, number: u32) -> RowKind {
    RowKind::Stopper { caller, number }
}
