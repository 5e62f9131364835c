//! The two ends of a parker that counts: what one end posts, the other takes.
//!
//! `law` has the parker's rule, `post` the two ends, a `Poster` and a `Taker`, and `token` what a take gives. What the
//! rule says stands in `specs/Law.antt`.
#![tactic(auto)]

mod law;
mod post;
#[cfg(test)]
mod tests;
mod token;

pub use post::{Poster, Taker, station};
pub use token::Token;
