// Events, as a table has them.
use bq_model::{Op, Ops, OutOfMemory};
use std::alloc::Global;
use step_core::Event;

/// Events, as a table has them: the start of an enqueue, of a dequeue or of any operations, or so many steps of a caller.
#[derive(Clone, Copy)]
pub enum Play<'a> {
    Enq(u32, u64),
    Deq(u32),
    Start(u32, &'a [Op]),
    Steps(u32, u32),
}

fn start(alloc: Global, caller: u32, ops: &[Op]) -> Result<Event, OutOfMemory> {
    let ops = Ops::from(ops.to_vec(alloc)?);
    Ok(Event::Start { caller, ops })
}

pub fn events_of(alloc: Global, plays: &[Play]) -> Result<Vec<Event>, OutOfMemory> {
    let mut events = Vec::new(alloc);
    for play in plays {
        match *play {
            Play::Enq(caller, value) => events.push(start(alloc, caller, &[Op::Enq(value)])?)?,
            Play::Deq(caller) => events.push(start(alloc, caller, &[Op::Deq])?)?,
            Play::Start(caller, ops) => events.push(start(alloc, caller, ops)?)?,
            Play::Steps(caller, n) => {
                for _ in 0..n {
                    events.push(Event::Step { caller })?;
                }
            }
        }
    }
    Ok(events)
}
