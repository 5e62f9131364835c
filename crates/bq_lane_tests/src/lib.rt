//! Tests of the lane without locks, as it runs.
//!
//! `bench` makes a lane of one caller and gives it batches, and `worked` has the worked examples. `rooms` fills lanes.
//! `beside`, `long`, `small` and `four` have callers in threads of their own.
#![tactic(auto)]

#[cfg(test)]
mod bench;
#[cfg(test)]
mod beside;
#[cfg(test)]
mod four;
#[cfg(test)]
mod long;
#[cfg(test)]
mod rooms;
#[cfg(test)]
mod small;
#[cfg(test)]
mod worked;
