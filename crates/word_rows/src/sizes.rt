// How many rows and words a lane has.
ghost use Rattle.std.specs.Prelude.{◌≡◌};
ghost use Rattle.word_rows.specs.Sizes.{waiting_of, items_of, stoppers_of, own_rows_of, rows_of, anns_of, words_of};

use bq_model::Shape;

/// How many rows can wait to be used again.
#[inline(always)]
fn waiting(shape: &Shape) -> u32
    ensures { result ≡ waiting_of shape.now }
{
    shape.callers() * (shape.batch() + shape.callers() + 1)
}

/// How many item rows each caller has.
#[inline(always)]
pub fn items(shape: &Shape) -> u32
    ensures { result ≡ items_of shape.now }
{
    shape.room() + 1 + waiting(shape)
}

/// How many stopper rows each caller has. A stopper is a row without a value.
#[inline(always)]
pub fn stoppers(shape: &Shape) -> u32
    ensures { result ≡ stoppers_of shape.now }
{
    2 + waiting(shape)
}

/// How many rows each caller has.
#[inline(always)]
pub(crate) fn own_rows(shape: &Shape) -> u32
    ensures { result ≡ own_rows_of shape.now }
{
    items(shape) + stoppers(shape)
}

/// How many rows there are, with row 0.
#[inline(always)]
pub fn rows(shape: &Shape) -> u32
    ensures { result ≡ rows_of shape.now }
{
    1 + shape.callers() * own_rows(shape)
}

/// How many announcements there are.
#[inline(always)]
pub fn anns(shape: &Shape) -> u32
    ensures { result ≡ anns_of shape.now }
{
    shape.callers() * shape.callers()
}

/// How many words the lane's table has.
#[inline(always)]
pub fn words(shape: &Shape) -> u32
    ensures { result ≡ words_of shape.now }
{
    2 + 3 * rows(shape) + 2 * shape.callers() + 10 * anns(shape)
}
