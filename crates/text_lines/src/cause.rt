// The order of the causes of faults within a line.
ghost use Rattle.std.specs.Prelude.{◌≡◌};
ghost use Rattle.text_lines.specs.Cause.{rank, earlier};

use bq_model::TextCause;

/// The one of two causes that comes first in the order of faults within a line.
pub fn first_of(one: TextCause, other: TextCause) -> TextCause
    ensures { result ≡ earlier one other }
{
    if rank_of(one) <= rank_of(other) {
        one
    } else {
        other
    }
}

// The place of a cause in the order.
fn rank_of(cause: TextCause) -> u8
    ensures { result ≡ rank cause }
{
    match cause {
        TextCause::NotText => 0,
        TextCause::NoHeader => 1,
        TextCause::BadWord => 2,
        TextCause::BadNumber => 3,
        TextCause::BadLane => 4,
        TextCause::BusyCaller => 5,
        TextCause::BlockTooLong => 6,
        TextCause::TooMany => 7,
        TextCause::OpenBlock => 8,
        TextCause::OpenRound => 9,
        TextCause::TooLong => 10,
        TextCause::TooDeep => 11,
    }
}
