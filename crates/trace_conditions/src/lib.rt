//! Which condition of Kogan and Herlihy (PODC 2014) an order of operations with futures meets, and whether its batches stay
//! whole.
//!
//! `stamped` is an operation with its stamps, `spans` the spans in which a caller makes its futures, `ahead` and `callers` say whether pairs of operations stand as they must, `whole`
//! whether batches do, and `condition` names the first condition that holds. The conditions stand in `specs/Conditions`, over all
//! pairs of places.
#![tactic(auto)]

mod ahead;
mod callers;
mod condition;
mod laws;
mod spans;
mod stamped;
#[cfg(test)]
mod tests;
mod whole;

pub use condition::{Condition, condition_of};
pub use laws::strong_is_medium_and_medium_is_weak;
pub use spans::{Spans, add_span, meets_none};
pub use stamped::{MOST_CALLERS, Stamped};
pub use whole::is_whole;
