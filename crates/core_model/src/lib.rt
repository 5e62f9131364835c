//! A lane without locks stays lawful: the proof that each step of each caller keeps its state so, and what a lawful lane promises.
//!
//! The steps themselves are those of `lane_steps`. The laws in `laws` say that each event keeps the lane lawful, and what a
//! lawful lane promises. `specs/` has one notion a file: `Facts` and `Lawful` say what is true of a lane at every moment.
#![tactic(auto)]

mod laws;

pub use laws::{
    a_lane_opens_as_its_table, a_step_is_its_callers_alone, a_step_stores_into_one_word,
    announced_batch_is_its_owners, counts_stay_in_range, each_event_keeps_the_lane_lawful,
    each_row_has_one_use, ended_commands_stand_in_the_history, held_announcements_are_left,
    held_rows_are_left, starts_and_ends_are_noted, words_can_be_coded, words_show_the_last_queue,
};
