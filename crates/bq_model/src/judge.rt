// The judge of answers. It builds no queue: what is queued are the next values that the operations enqueue, behind
// those that were taken. Once it is shut no further value enters.
ghost use Rattle.std.specs.Prelude.{◌≡◌, ◌↔◌, ◌+◌, ◌<◌, ◌≤◌, ◌^◌, [], ◌∷◌, length, IsTrue, MatchOption};
ghost use Rattle.bq_model.specs.Values.{enqueued};
ghost use Rattle.bq_model.specs.History.{operations, answers_of};
ghost use Rattle.bq_model.specs.Replay.{answers_from};
ghost use Rattle.bq_model.specs.Queue.{unshut, queue_after};

use crate::group::Group;
use crate::op::{Answer, Op};
use std::marker::Model;

// Operations still to come: those that are left of a group, and those of the groups behind it.
#[derive(Drop)]
struct Coming<'h> {
    ops: &'h [Op],
    groups: &'h [Group],
}

impl<'h> Model for Coming<'h> {
    ghost use Rattle.std.specs.Prelude.{List, ◌++◌};
    ghost use Rattle.bq_model.specs.declared.op.Op.{Op};
    ghost use Rattle.bq_model.specs.History.{operations};

    ghost Value = { List Op };

    ghost view = { λ c. c.ops.now ++ operations c.groups.now };
}

impl<'h> Coming<'h> {
    fn of(groups: &'h [Group]) -> Self
        ensures { result ≡ operations groups.now }
    {
        Coming { ops: &[], groups }
    }

    fn next(&mut self) -> Option<Op>
        ensures { MatchOption result ((self.old ≡ []) × (self.new ≡ [])) (λ op. self.old ≡ op ∷ self.new) }
    {
        loop {
            if let [op, ops @ ..] = self.ops {
                self.ops = ops;
                return Some(*op);
            }
            let [group, groups @ ..] = self.groups else {
                return None;
            };
            self.ops = group.ops.as_slice();
            self.groups = groups;
        }
    }

    // The next value that is enqueued.
    fn next_value(&mut self) -> Option<u64>
        ensures { MatchOption result (enqueued self.old ≡ []) (λ v. enqueued self.old ≡ v ∷ enqueued self.new) }
    {
        while let Some(op) = self.next() {
            if let Op::Enq(v) = op {
                return Some(v);
            }
        }
        None
    }
}

// The replay of groups: so many values are queued, and the first of them is the next one that `values` comes to.
#[derive(Drop)]
struct Replay<'h> {
    values: Coming<'h>,
    queued: usize,
    shut: bool,
    coming: Coming<'h>,
}

impl<'h> Model for Replay<'h> {
    ghost use Rattle.std.specs.Prelude.{◌≡◌, ◌≤◌, false, take, drop, length};
    ghost use Rattle.bq_model.specs.Coming.{Replaying};
    ghost use Rattle.bq_model.specs.Queue.{queue_of};
    ghost use Rattle.bq_model.specs.Values.{enqueued};

    ghost Value = { Replaying };

    ghost view = { λ r. record { queue = queue_of (take r.queued (enqueued r.values)) r.shut; coming = r.coming } };

    ghost invariant = { λ r. (r.queued ≤ length (enqueued r.values))
        × (r.shut ≡ false → drop r.queued (enqueued r.values) ≡ enqueued r.coming) };
}

impl<'h> Replay<'h> {
    fn of(groups: &'h [Group]) -> Self
        ensures { result ≡ record { queue = unshut []; coming = operations groups.now } }
    {
        Replay {
            values: Coming::of(groups),
            queued: 0,
            shut: false,
            coming: Coming::of(groups),
        }
    }

    // The answer to the next operation, if there is one.
    fn next_answer(&mut self) -> Option<Answer>
        requires { length self.old.queue.values + 1 < 2 ^ 64 }
        ensures answer { MatchOption result (self.old.coming ≡ []) (λ answer. answers_from self.old.queue self.old.coming ≡ answer ∷ answers_from self.new.queue self.new.coming) }
        ensures queue { length self.new.queue.values ≤ length self.old.queue.values + 1 }
    {
        match self.coming.next()? {
            Op::Enq(_) if self.shut => Some(Answer::Refused),
            Op::Enq(_) => {
                self.queued += 1;
                Some(Answer::Done)
            }
            Op::Deq if self.queued == 0 => Some(Answer::Empty),
            Op::Deq => {
                let v = self.values.next_value()?;
                self.queued -= 1;
                Some(Answer::Got(v))
            }
            Op::Shut => {
                self.shut = true;
                Some(Answer::Done)
            }
        }
    }
}

/// Whether the answers are, in order, those of a single thread's queue, empty and not shut at first, to the operations
/// of the groups. It takes no memory, and time in proportion to the groups and their operations.
pub fn legal(groups: &[Group], answers: &[Answer]) -> bool
    ensures { IsTrue result ↔ (answers.now ≡ answers_of groups.now) }
{
    let mut replay = Replay::of(groups);
    for answer in answers {
        if replay.next_answer() != Some(*answer) {
            return false;
        }
    }
    replay.next_answer().is_none()
}

#[cfg(test)]
mod tests {
    use super::*;
    use crate::items::Ops;
    use std::test::Fail;

    #[test]
    fn answers_are_those_of_one_thread(rt: HostRuntime) -> Result<(), Fail> {
        let made: [&[Op]; 3] = [
            &[Op::Deq, Op::Enq(1), Op::Enq(2)],
            &[Op::Deq],
            &[Op::Deq, Op::Deq, Op::Enq(1), Op::Deq],
        ];
        let mut groups = Vec::new(rt.alloc());
        for ops in made {
            let ops = Ops::from(ops.to_vec(rt.alloc())?);
            groups.push(Group {
                caller: 0,
                batch: 0,
                ops,
            })?;
        }
        let answers = [
            Answer::Empty,
            Answer::Done,
            Answer::Done,
            Answer::Got(1),
            Answer::Got(2),
            Answer::Empty,
            Answer::Done,
            Answer::Got(1),
        ];
        assert!(rt; legal(&groups, &answers));
        assert!(rt; !legal(&groups, &answers[..7]));
        let mut others = answers;
        others[3] = Answer::Got(2);
        assert!(rt; !legal(&groups, &others));
        let _ = groups.pop();
        assert!(rt; !legal(&groups, &answers));
        assert!(rt; legal(&groups, &answers[..4]));
        Ok(())
    }
}
