//! What comes after each step of a call: the machine's course, with what the call has at hand.
//!
//! `next` says it for all points of the machine of `lane_steps`. `scratch` has what a call has at hand: the values that it
//! enqueues, and the lists that it fills, whose memory is reserved when a lane is made. `fill` takes and links the rows of a
//! batch, `scan` chooses an announcement, `read` reads the values of a batch, and `call_end`, with `order`, marks and frees rows
//! at its end.
#![tactic(auto)]

mod call_end;
mod fill;
mod next;
mod order;
mod read;
mod scan;
mod scratch;

pub use call_end::{close, retire, was_passed};
pub use fill::{row_at, value_at, with_rows};
pub use next::{Next, follow};
pub use order::put_in_order;
pub use read::{forget, leave, remember};
pub use scan::note;
pub use scratch::Scratch;
