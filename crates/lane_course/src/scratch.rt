// What a command has at hand beside its point: the values that it enqueues, and the lists that its caller keeps.
ghost use Rattle.std.specs.Prelude.{◌≡◌, [], IfOk};
ghost use Rattle.lane_steps.specs.Start.{newcomer};
ghost use Rattle.lane_course.specs.Scratch.{Reserves, keeping};

use bq_model::{OutOfMemory, Shape};
use lane_steps::Hold;
use node_guard::Retired;
use std::alloc::Global;
use std::collections::VecDeque;

/// The lists that a command fills and that its caller keeps, and what its caller's own hazard words name. Their memory is
/// reserved when the pass is made, and no call takes more.
#[derive(Drop)]
pub struct Scratch {
    /// The values that the command enqueues.
    pub puts: Vec<u64>,
    /// The rows that it took and didn't link.
    pub rows: VecDeque<u32>,
    /// The values that it got.
    pub values: Vec<u64>,
    /// The rows of these; then those that it has yet to mark.
    pub walked: VecDeque<u32>,
    /// The rows that its caller has yet to free.
    pub retired: Retired,
    /// What it found in the hazard words of others, when it last chose an announcement or scanned for its rows.
    pub named: Vec<u32>,
    /// What its own NODE_HAZARD names.
    pub row_hold: Hold,
    /// What its own ANN_HAZARD names.
    pub hold: Hold,
}

impl Scratch {
    /// That of a caller of such a lane which made no command yet.
    pub fn new(alloc: Global, shape: &Shape) -> Result<Scratch, OutOfMemory>
        ensures reserves { IfOk result (λ scratch. Reserves shape.now scratch) }
        ensures keeps_nothing { IfOk result (λ scratch. newcomer ≡ keeping newcomer scratch) }
    {
        let room = shape.batch() as usize;
        Ok(Scratch {
            puts: Vec::with_capacity(alloc, room)?,
            rows: VecDeque::with_capacity(alloc, room)?,
            values: Vec::with_capacity(alloc, room)?,
            walked: VecDeque::with_capacity(alloc, room)?,
            retired: Retired::new(alloc, shape)?,
            named: Vec::with_capacity(alloc, shape.callers() as usize)?,
            row_hold: Hold::Free,
            hold: Hold::Free,
        })
    }
}
