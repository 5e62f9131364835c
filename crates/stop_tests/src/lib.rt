//! Tests of callers that stop: the others go on.
//!
//! `acts` has what a table tells callers to do, and `other` a caller that makes one command after another. `stops` stops a
//! caller before each kind of step, while two others make a thousand operations each. `rows` stops one that holds a row.
//! `rooms` has callers at their room beside others that are stopped. `longest` counts the steps of the longest calls.
#![tactic(auto)]

#[cfg(test)]
mod acts;
#[cfg(test)]
mod longest;
#[cfg(test)]
mod other;
#[cfg(test)]
mod rooms;
#[cfg(test)]
mod rows;
#[cfg(test)]
mod stops;
