// The groups that a history is made of.
use crate::items::Ops;

/// Operations of one caller that take effect together. A plain operation is a group of one.
#[derive(Debug, Drop)]
pub struct Group {
    /// Who made it.
    pub caller: u32,
    /// Its number among the groups of this caller, from 0.
    pub batch: u64,
    /// Its operations, first to last, at least one.
    pub ops: Ops,
}
