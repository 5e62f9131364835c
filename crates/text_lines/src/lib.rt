//! What all texts have in common, below the grammar of each kind of text.
//!
//! `lines` cuts a text into lines and `words` a line into words. `numbers` reads numbers, and `hex_words` reads and
//! prints hex words and byte words. `cause` has the order of faults within a line. `refused` says why a line was not
//! read, and `reading` goes over the lines of a text whose meaning a `LineReader` has, up to the first fault. The
//! definitions stand in `specs/`, one notion a file, and the laws above them in `laws`.
#![tactic(auto)]

mod cause;
mod hex_words;
mod laws;
mod lines;
mod numbers;
mod reading;
mod refused;
#[cfg(test)]
mod tests;
mod words;

pub use cause::first_of;
pub use hex_words::{append_byte_word, append_hex_word, byte_word, hex_word};
pub use laws::{
    fault_of_a_line_comes_first_in_the_order, fault_of_a_text_is_that_of_its_first_faulty_line,
    printed_words_are_read_back,
};
pub use lines::{Lines, is_text};
pub use numbers::{number, number_within};
pub use reading::{LineReader, read_text};
pub use refused::LineRefused;
pub use words::{Words, is_header, is_passed_over};
