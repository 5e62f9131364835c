//! The rule of a lane's table: its words and the views of its callers show a lawful lane.
//!
//! Three layers: the words are the codes of contents (`Shows` of `word_rows`), the contents are those of the machine's state
//! (`read` of `lane_steps`), and the state is lawful. `specs/Rule` says it on one page. `view` has what a caller knows and
//! what its moves tell, `steps` the machine's step on the table, and `seats` how the callers' seats are made and gathered.
#![tactic(auto)]

mod seats;
mod steps;
mod view;

pub use seats::{gather, next_caller};
pub use steps::{Token, Words, exchange, first_load, first_step, join, load, step, store};
pub use view::{
    Command, Finds, FirstFinds, Gathers, Held, Kept, Kind, LaneRule, Learns, Makes, Stores, View,
};
