//! Why each call of a lane returns: a rank that no step lowers, and what is left to a caller, which each of its steps lowers.
//!
//! `specs/Rank` says how far a lane has come, by its words and its history alone. `specs/Expected` says what a caller expects
//! of the words on which its next steps rest: each is there, or the rank has risen since. `specs/Weight` says how many steps
//! are left until a round ends, `specs/Return` joins both, and `specs/Runs` says what runs of a lane are.
#![tactic(auto)]

mod laws;

pub use laws::{
    each_command_ends, kept_words_are_there_or_the_rank_is_greater, no_step_lowers_the_rank,
};
