//! The guards of a lane that uses its rows and announcements again: what another caller holds is not given out.
//!
//! `ann_stock` picks a caller's next announcement, and `retired` keeps the rows that a caller let go until nobody
//! holds them. `specs/` says which announcement and which row that is.
#![tactic(auto)]

mod ann_stock;
mod retired;
#[cfg(test)]
mod tests;

pub use ann_stock::AnnStock;
pub use retired::Retired;
