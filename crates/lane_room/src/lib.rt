//! Why a call ends with Full: its caller's own queued items were too many for the room of a lane, at a moment of that call.
//!
//! `specs/Busy` says which rows of a caller aren't free, and how many of them all callers together can keep back; `specs/Share`
//! says what one caller keeps back. `specs/Search` says what a caller knows while it looks for a free row, and why it finds none,
//! and `specs/Roomy` what stands in a lane at each event.
#![tactic(auto)]

mod laws;

pub use laws::full_comes_only_above_the_room;
