//! The texts of histories and of schedules.
//!
//! `claim` has what a line of a history claims, `history` reads a history from its text, and `verdict` judges it with
//! the queue of a single thread, `fifo`; `check` does both. `schedule` reads what the lines of a schedule say, with the
//! words of `kinds`, and `play` does it on a machine; `print` prints the machine's history, and `playing` does all three.
//! `laws` has what follows. What the text of a history is stands in `specs/HistoryText.antt`, what is found of it in
//! `specs/Verdicts.antt` and `specs/Legal.antt`; what the text of a schedule is in `specs/ScheduleText.antt`, what
//! becomes of the machine in `specs/Played.antt`, and what is printed in `specs/Printed.antt`.
#![tactic(auto)]

mod check;
mod claim;
mod fifo;
mod history;
mod kinds;
mod laws;
mod play;
mod playing;
mod print;
mod schedule;
mod verdict;

pub use check::check_history;
pub use laws::{
    first_faulty_line_of_a_history_is_named, longer_texts_are_alike, verdict_is_that_of_the_replay,
};
pub use playing::play_schedule;
pub use verdict::Verdict;
