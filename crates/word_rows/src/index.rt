// Where each word lies in the lane's table.
ghost use Rattle.std.specs.Prelude.{◌≡◌, ◌+◌, ◌*◌, ◌<◌};
ghost use Rattle.word_rows.specs.Sizes.{rows_of, anns_of, words_of};
ghost use Rattle.word_rows.specs.Layout.{index_of};

use crate::location::{AnnField, Location};
use crate::sizes::rows;
use bq_model::Shape;

/// The words before those of row 0.
pub(crate) const ENDS: u32 = 2;
/// The words of a row.
pub(crate) const ROW_WORDS: u32 = 3;
/// The words of a caller.
pub(crate) const CALLER_WORDS: u32 = 2;
/// The words of an announcement.
pub(crate) const ANN_WORDS: u32 = 10;

/// Where HEAD lies.
#[inline(always)]
pub fn head(shape: &Shape) -> u32
    ensures by_the_layout { result ≡ index_of shape.now Location.Head }
    ensures in_the_table { result < words_of shape.now }
{
    0
}

/// Where TAIL lies.
#[inline(always)]
pub fn tail(shape: &Shape) -> u32
    ensures by_the_layout { result ≡ index_of shape.now Location.Tail }
    ensures in_the_table { result < words_of shape.now }
{
    1
}

/// Where LINK of a row lies.
#[inline(always)]
pub fn link(shape: &Shape, row: u32) -> u32
    requires { row < rows_of shape.now }
    ensures by_the_layout { result ≡ index_of shape.now (Location.Link row) }
    ensures in_the_table { result < words_of shape.now }
{
    ENDS + ROW_WORDS * row
}

/// Where VALUE of a row lies.
#[inline(always)]
pub fn value(shape: &Shape, row: u32) -> u32
    requires { row < rows_of shape.now }
    ensures by_the_layout { result ≡ index_of shape.now (Location.Value row) }
    ensures in_the_table { result < words_of shape.now }
{
    ENDS + ROW_WORDS * row + 1
}

/// Where MARK of a row lies.
#[inline(always)]
pub fn mark(shape: &Shape, row: u32) -> u32
    requires { row < rows_of shape.now }
    ensures by_the_layout { result ≡ index_of shape.now (Location.Mark row) }
    ensures in_the_table { result < words_of shape.now }
{
    ENDS + ROW_WORDS * row + 2
}

/// Where the words of the callers begin.
#[inline(always)]
pub(crate) fn callers_start(shape: &Shape) -> u32
    ensures { result ≡ 2 + 3 * rows_of shape.now }
{
    ENDS + ROW_WORDS * rows(shape)
}

/// Where the words of the announcements begin.
#[inline(always)]
pub(crate) fn anns_start(shape: &Shape) -> u32
    ensures { result ≡ 2 + 3 * rows_of shape.now + 2 * shape.now.callers }
{
    callers_start(shape) + CALLER_WORDS * shape.callers()
}

/// Where NODE_HAZARD of a caller lies.
#[inline(always)]
pub fn node_hazard(shape: &Shape, caller: u32) -> u32
    requires { caller < shape.now.callers }
    ensures by_the_layout { result ≡ index_of shape.now (Location.NodeHazard caller) }
    ensures in_the_table { result < words_of shape.now }
{
    callers_start(shape) + CALLER_WORDS * caller
}

/// Where ANN_HAZARD of a caller lies.
#[inline(always)]
pub fn ann_hazard(shape: &Shape, caller: u32) -> u32
    requires { caller < shape.now.callers }
    ensures by_the_layout { result ≡ index_of shape.now (Location.AnnHazard caller) }
    ensures in_the_table { result < words_of shape.now }
{
    callers_start(shape) + CALLER_WORDS * caller + 1
}

/// Where a word of an announcement lies.
#[inline(always)]
pub fn ann_word(shape: &Shape, ann: u32, field: AnnField) -> u32
    requires { ann < anns_of shape.now }
    ensures by_the_layout { result ≡ index_of shape.now (Location.AnnWord ann field) }
    ensures in_the_table { result < words_of shape.now }
{
    anns_start(shape) + ANN_WORDS * ann + field.number()
}
