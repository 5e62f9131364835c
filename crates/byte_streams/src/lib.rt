//! The two ends of a program, in pieces: what one read gives, and a whole text that is written.
//!
//! `read` reads one piece of a source, and `write` writes all of a text. What a call did to a stream stands in
//! `specs/Streams.antt`.
#![tactic(auto)]

mod read;
#[cfg(test)]
mod tests;
mod write;

pub use read::{InputFault, PIECE, read_piece, zeros};
pub use write::write_all;
