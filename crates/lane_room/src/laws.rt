// Laws of the room. Each is proved of every lane and every state; the functions do nothing.
ghost use Rattle.std.specs.Prelude.{◌≡◌, ◌<◌, ◌≤◌, ℕ, List, length, Some};
ghost use Rattle.bq_model.specs.declared.op.Op.{Op};
ghost use Rattle.bq_model.specs.declared.shape.Shape.{Shape};
ghost use Rattle.excess_count.specs.Excess.{enqueue_count};
ghost use Rattle.lane_steps.specs.declared.point.CallEnd.TheVariants.{Full};
ghost use Rattle.lane_steps.specs.declared.point.Point.TheVariants.{Idle};
ghost use Rattle.lane_steps.specs.LaneSizes.{lane_sizes};
ghost use Rattle.lane_steps.specs.Start.{PassesAllowance, IsCommand, start, opening};
ghost use Rattle.lane_steps.specs.State.{State};
ghost use Rattle.lane_steps.specs.Step.{next};
ghost use Rattle.lane_room.specs.Roomy.{Roomy};
ghost use Rattle.lane_room.specs.Search.{AboveRoom};

/// A command ends with Full only where it has an enqueue, and at a moment of its call its enqueues and the queued items that its
/// caller had enqueued passed the room. So dequeues alone never end with Full. What tells so stands in an empty lane, and at each
/// step and each start of a command.
pub fn full_comes_only_above_the_room()
    ensures opening { (z : Shape) → Roomy z (opening (lane_sizes z)) }
    ensures step { (z : Shape) (s : State) (c : ℕ) → Roomy z s → Roomy z (next (lane_sizes z) s c) }
    ensures start { (z : Shape) (s : State) (c : ℕ) (ops : List Op) → Roomy z s → c < z.callers → (s.callers c).point ≡ Idle → IsCommand ops → length ops ≤ z.batch
        → ¬ (PassesAllowance (lane_sizes z) (s.callers c) (length ops)) → Roomy z (start (lane_sizes z) s c ops) }
    ensures full { (z : Shape) (s : State) (c : ℕ) → Roomy z s → 0 < length (s.callers c).ops → ((next (lane_sizes z) s c).callers c).point ≡ Idle
        → ((next (lane_sizes z) s c).callers c).outcome ≡ Some Full
        → (0 < enqueue_count (s.callers c).ops) × AboveRoom z.room (next (lane_sizes z) s c).history c (s.callers c).started_at (enqueue_count (s.callers c).ops) }
{}
