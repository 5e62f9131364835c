//! Tests of the machine of a lane.
//!
//! `plays` has the events of a table, and `schedules` runs tables of them. `plain` goes step by step through single
//! operations, and `short` through all short schedules of two callers. `acts` has what a table tells callers to do,
//! `batches` and `many` what batches leave, `steps` and `walks` the order of their steps, `helpers` callers that stop within a
//! help, and `holds` announcements that are used again. `laws` calls each law.
#![tactic(auto)]

#[cfg(test)]
mod acts;
#[cfg(test)]
mod batches;
#[cfg(test)]
mod helpers;
#[cfg(test)]
mod holds;
#[cfg(test)]
mod laws;
#[cfg(test)]
mod many;
#[cfg(test)]
mod plain;
#[cfg(test)]
mod plays;
#[cfg(test)]
mod schedules;
#[cfg(test)]
mod short;
#[cfg(test)]
mod steps;
#[cfg(test)]
mod walks;
