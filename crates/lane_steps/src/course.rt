// What becomes of a caller's command after a step.
use crate::point::{Closing, Hold, Notice, Point, Reading, Taking};
use word_rows::Place;

/// What becomes of a command after a step.
#[derive(Clone, Copy)]
pub enum Course {
    /// It goes on.
    GoesOn(Point),
    /// It has taken effect and marks no row of the list, or it ends with Full.
    Closes(Closing),
    /// No own row of the kind is free, and it ends with Full.
    Lacks,
    /// It has moved the head from this place over one row, to this row, whose value it took.
    Passes {
        closing: Closing,
        dummy: Place,
        row: u32,
    },
    /// A batch has taken and filled this row.
    Fills {
        notice: Notice,
        row: u32,
    },
    /// A batch has linked its row of this number to the next one.
    Chains {
        notice: Notice,
        number: u32,
    },
    /// A batch has taken this stopper.
    Stops {
        notice: Notice,
        row: u32,
    },
    /// A batch has too few values and no announcement yet: it takes a stopper.
    Takes(Taking),
    /// It has read the ANN_HAZARD of this caller, and found this named.
    Hears {
        notice: Notice,
        caller: u32,
        named: Option<u32>,
    },
    /// It goes on, and what its ANN_HAZARD names, or whether it holds that, has changed.
    Guards(Point, Hold),
    /// The same of its NODE_HAZARD.
    Holds(Point, Hold),
    /// A batch reads the values that it gets, from the row on, with so many to go; its rows were linked, or not.
    Reads {
        reading: Reading,
        row: u32,
        left: u32,
        linked: bool,
    },
    /// The same, with one more value read, of this row.
    ReadsMore {
        reading: Reading,
        row: u32,
        left: u32,
        value: u64,
    },
    /// It goes on, with no value read.
    Walks(Point),
    /// It goes on, with one more value read, of this row.
    WalksMore {
        point: Point,
        row: u32,
        value: u64,
    },
    /// A batch has moved the head over all rows that it walked, from this place on.
    Moves {
        dummy: Place,
        queued: u64,
    },
    /// It has marked the row at this place, which has both marks now, or not.
    Marks {
        closing: Closing,
        place: Place,
        both: bool,
        stopped: bool,
    },
    /// It has marked this row, which it took and didn't link.
    Retires {
        closing: Closing,
        row: u32,
    },
    /// It has cleared its NODE_HAZARD, or its ANN_HAZARD.
    ClearsNode(Closing),
    ClearsAnn(Closing),
    /// At its end it has read the NODE_HAZARD of this caller, and found this named.
    Finds {
        closing: Closing,
        caller: u32,
        named: Option<u32>,
    },
    /// It has freed the first row of its retired list that isn't named.
    Frees(Closing),
}
