// Whose each row and each announcement is.
ghost use Rattle.std.specs.Prelude.{◌≡◌, ◌↔◌, ℕ, ◌<◌, Some, None};
ghost use Rattle.word_rows.specs.Sizes.{rows_of, anns_of, items_of, stoppers_of};
ghost use Rattle.word_rows.specs.ReadsBack.{ReadsBack};
ghost use Rattle.word_rows.specs.Homes.{item_row_of, stopper_row_of, row_of, IsRow, IsHome, own_ann_of};

use crate::sizes::{items, own_rows};
use bq_model::Shape;

/// What a row is there for.
#[derive(Clone, Copy, Debug, PartialEq, Eq, Hash)]
pub enum RowKind {
    /// Row 0, the first dummy, which is nobody's.
    Dummy,
    /// A row of a caller for a value.
    Item {
        /// The number of the caller.
        caller: u32,
        /// Which of the caller's item rows it is, counted from 0.
        number: u32,
    },
    /// A row of a caller without a value.
    Stopper {
        /// The number of the caller.
        caller: u32,
        /// Which of the caller's stopper rows it is, counted from 0.
        number: u32,
    },
}

/// What the row is there for.
pub fn row_kind(shape: &Shape, row: u32) -> RowKind
    requires { row < rows_of shape.now }
    ensures { ReadsBack (IsRow shape.now) (row_of shape.now) row (Some result) }
{
    if row == 0 {
        return RowKind::Dummy;
    }
    let own = own_rows(shape);
    let items = items(shape);
    let caller = (row - 1) / own;
    let number = (row - 1) % own;
    if number < items {
        RowKind::Item { caller, number }
    } else {
        RowKind::Stopper {
            caller,
            number: number - items,
        }
    }
}

/// Whose row it is; nobody's for row 0.
pub fn home(shape: &Shape, row: u32) -> Option<u32>
    requires { row < rows_of shape.now }
    ensures nobody_for_row_0 { (result ≡ None) ↔ (row ≡ 0) }
    ensures the_caller_whose_row_it_is { (caller : ℕ)
        → (result ≡ Some caller) ↔ ((caller < shape.now.callers) × IsHome shape.now caller row) }
{
    match row_kind(shape, row) {
        RowKind::Dummy => None,
        RowKind::Item { caller, .. } => Some(caller),
        RowKind::Stopper { caller, .. } => Some(caller),
    }
}

/// An item row of a caller, by its number there.
pub fn item_row(shape: &Shape, caller: u32, number: u32) -> u32
    requires caller { caller < shape.now.callers }
    requires number { number < items_of shape.now }
    ensures by_number { result ≡ item_row_of shape.now caller number }
    ensures is_a_row { result < rows_of shape.now }
{
    1 + caller * own_rows(shape) + number
}

/// A stopper row of a caller, by its number there.
pub fn stopper_row(shape: &Shape, caller: u32, number: u32) -> u32
    requires caller { caller < shape.now.callers }
    requires number { number < stoppers_of shape.now }
    ensures by_number { result ≡ stopper_row_of shape.now caller number }
    ensures is_a_row { result < rows_of shape.now }
{
    1 + caller * own_rows(shape) + items(shape) + number
}

/// An announcement of a caller, by its number there.
pub fn own_ann(shape: &Shape, caller: u32, number: u32) -> u32
    requires caller { caller < shape.now.callers }
    requires number { number < shape.now.callers }
    ensures by_number { result ≡ own_ann_of shape.now caller number }
    ensures is_an_announcement { result < anns_of shape.now }
{
    caller * shape.callers() + number
}

/// Whose announcement it is.
pub fn ann_owner(shape: &Shape, ann: u32) -> u32
    requires { ann < anns_of shape.now }
    ensures is_a_caller { result < shape.now.callers }
    ensures is_its_own { (number : ℕ) × (number < shape.now.callers) × (ann ≡ own_ann_of shape.now result number) }
    ensures is_nobody_elses { (caller number : ℕ) → number < shape.now.callers
        → ann ≡ own_ann_of shape.now caller number → caller ≡ result }
{
    ann / shape.callers()
}
