// Callers at their room, while others are stopped: a caller below its room gets no Full.
use crate::acts::{begin, go_until, is_at, is_done};
use bq_model::{Op, OutOfMemory, Shape};
use std::alloc::Global;
use std::collections::VecDeque;
use std::process::Abort;
use std::test::Fail;
use step_core::{Machine, StepKind};

/// A lane, and whose items are queued on it, the first one in front, as so many groups of its history leave them.
#[derive(Drop)]
struct Owned {
    machine: Machine,
    room: usize,
    groups: usize,
    queued: VecDeque<u32>,
}

impl Owned {
    fn new(alloc: Global, shape: &Shape) -> Result<Owned, OutOfMemory> {
        Ok(Owned {
            machine: Machine::new(alloc, shape)?,
            room: shape.room() as usize,
            groups: 0,
            queued: VecDeque::new(alloc),
        })
    }

    fn read_on(&mut self) -> Result<(), OutOfMemory> {
        for group in self.machine.history().iter().skip(self.groups) {
            for op in group.ops.as_slice() {
                match op {
                    Op::Enq(_) => self.queued.push_back(group.caller)?,
                    Op::Deq => {
                        let _: Option<u32> = self.queued.pop_front();
                    }
                    Op::Shut => {}
                }
            }
            self.groups = self.groups.saturating_add(1);
        }
        Ok(())
    }

    /// Whether the caller has at least as many items queued as its room.
    fn at_room(&self, caller: u32) -> bool {
        let mut own = 0usize;
        for owner in self.queued.iter() {
            if *owner == caller {
                own = own.saturating_add(1);
            }
        }
        self.room <= own
    }

    /// The caller makes the command up to its end. Whether it was done.
    fn make(&mut self, rt: &impl Abort, caller: u32, ops: &[Op]) -> Result<bool, Fail> {
        begin(&mut self.machine, caller, ops)?;
        assert!(rt; !is_at(&self.machine, caller, None));
        go_until(&mut self.machine, caller, None);
        assert!(rt; is_at(&self.machine, caller, None));
        self.read_on()?;
        Ok(is_done(&self.machine, caller))
    }

    /// The callers enqueue until each is at its room. None gets Full.
    fn fill(&mut self, rt: &impl Abort, callers: &[u32]) -> Result<(), Fail> {
        for caller in callers {
            for _ in 0..self.room {
                if !self.at_room(*caller) {
                    assert!(rt; self.make(rt, *caller, &[Op::Enq(1)])?);
                }
            }
            assert!(rt; self.at_room(*caller));
        }
        Ok(())
    }

    /// The caller makes so many more enqueues, or as many as it can. Whether one of them ended with Full.
    fn fill_over(&mut self, rt: &impl Abort, caller: u32, enqueues: u32) -> Result<bool, Fail> {
        for _ in 0..enqueues {
            assert!(rt; self.at_room(caller));
            if !self.make(rt, caller, &[Op::Enq(2)])? {
                return Ok(true);
            }
        }
        Ok(false)
    }

    /// The callers dequeue in turns, until this one is below its room. None gets Full.
    fn drain(&mut self, rt: &impl Abort, callers: &[u32], of: u32) -> Result<(), Fail> {
        for _ in 0..100 {
            for caller in callers {
                if self.at_room(of) {
                    assert!(rt; self.make(rt, *caller, &[Op::Deq])?);
                }
            }
            if !self.at_room(of) {
                break;
            }
        }
        assert!(rt; !self.at_room(of));
        Ok(())
    }

    /// The caller starts the command, and stops before a step of the kind.
    fn stop(
        &mut self,
        rt: &impl Abort,
        caller: u32,
        ops: &[Op],
        kind: StepKind,
    ) -> Result<(), Fail> {
        begin(&mut self.machine, caller, ops)?;
        go_until(&mut self.machine, caller, Some(kind));
        assert!(rt; is_at(&self.machine, caller, Some(kind)), "{kind:?}");
        Ok(self.read_on()?)
    }

    /// The caller is where it stopped, and goes on to the end of its command, which is done.
    fn go_on(&mut self, rt: &impl Abort, caller: u32, kind: StepKind) {
        assert!(rt; is_at(&self.machine, caller, Some(kind)), "{kind:?}");
        go_until(&mut self.machine, caller, None);
        assert!(rt; is_done(&self.machine, caller), "{kind:?}");
    }
}

const FOUR: &[Op] = &[Op::Deq, Op::Deq, Op::Deq, Op::Deq];

/// Commands, and where their callers stop: they hold rows there, or have yet to mark or to free those that they took.
const STOPS: [(&[Op], StepKind); 8] = [
    (&[Op::Deq], StepKind::LoadLink),
    (&[Op::Deq], StepKind::MoveHead),
    (&[Op::Enq(3)], StepKind::LinkSingle),
    (&[Op::Enq(3), Op::Enq(4)], StepKind::LinkChain),
    (FOUR, StepKind::MarkRow),
    (FOUR, StepKind::LoadHazard),
    (FOUR, StepKind::MarkFree),
    (FOUR, StepKind::MoveHeadMany),
];

/// All four callers are at their room as the last one stops. One more enqueue of each other one may end with Full.
#[test]
fn callers_at_their_room_go_on_beside_one_that_stops(rt: HostRuntime) -> Result<(), Fail> {
    let shape = Shape::new(4, 4, 4, 10_000, 0).ok_or("in limits")?;
    for (ops, kind) in STOPS {
        let mut lane = Owned::new(rt.alloc(), &shape)?;
        lane.fill(&rt, &[0, 1, 2, 3])?;
        lane.stop(&rt, 3, ops, kind)?;
        for _ in 0..100 {
            lane.fill(&rt, &[0, 1, 2])?;
            for caller in 0..3 {
                lane.fill_over(&rt, caller, 1)?;
            }
            for caller in 0..3 {
                lane.drain(&rt, &[1, 2, 0], caller)?;
            }
        }
        lane.go_on(&rt, 3, kind);
    }
    Ok(())
}

/// One caller is at its room as each of three others takes its items and stops. Then its rows are filled again and again.
#[test]
fn caller_at_its_room_goes_on_beside_three_that_stop(rt: HostRuntime) -> Result<(), Fail> {
    let shape = Shape::new(4, 4, 4, 10_000, 0).ok_or("in limits")?;
    for (ops, kind) in STOPS {
        let mut lane = Owned::new(rt.alloc(), &shape)?;
        for other in 1..4 {
            lane.fill(&rt, &[0])?;
            lane.stop(&rt, other, ops, kind)?;
        }
        for _ in 0..10 {
            lane.fill(&rt, &[0])?;
            assert!(rt; lane.fill_over(&rt, 0, 64)?, "{kind:?}");
            lane.drain(&rt, &[0], 0)?;
        }
        for other in 1..4 {
            lane.go_on(&rt, other, kind);
        }
    }
    Ok(())
}

/// On a lane of two callers with room 1 and batches of 1, each has ten item rows. Caller 0 fills its own and gets Full. Caller
/// 1 enqueues one item behind these, and dequeues up to that one.
#[test]
fn full_of_one_caller_leaves_the_other_going(rt: HostRuntime) -> Result<(), Fail> {
    let shape = Shape::new(2, 1, 1, 10_000, 0).ok_or("in limits")?;
    let mut lane = Owned::new(rt.alloc(), &shape)?;
    for _ in 0..100 {
        lane.fill(&rt, &[0])?;
        assert!(rt; !lane.fill_over(&rt, 0, 9)?);
        assert!(rt; lane.fill_over(&rt, 0, 1)?);
        lane.fill(&rt, &[1])?;
        assert!(rt; lane.fill_over(&rt, 0, 1)?);
        lane.drain(&rt, &[1], 1)?;
    }
    Ok(())
}
