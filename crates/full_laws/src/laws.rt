// Laws of schedules. Each is proved of every list of events; the functions do nothing.
ghost use Rattle.std.specs.Prelude.{◌≡◌, ◌<◌, ℕ, List, length, Ok, Some};
ghost use Rattle.bq_model.specs.declared.shape.Shape.{Shape};
ghost use Rattle.excess_count.specs.Excess.{enqueue_count};
ghost use Rattle.lane_steps.specs.declared.point.CallEnd.TheVariants.{Full};
ghost use Rattle.lane_steps.specs.declared.point.Point.TheVariants.{Idle};
ghost use Rattle.lane_steps.specs.LaneSizes.{lane_sizes};
ghost use Rattle.lane_steps.specs.Start.{opening};
ghost use Rattle.lane_steps.specs.State.{State};
ghost use Rattle.lane_steps.specs.Step.{next};
ghost use Rattle.lane_room.specs.Search.{AboveRoom};
ghost use Rattle.step_core.specs.declared.schedule.Event.{Event};
ghost use Rattle.step_core.specs.Schedule.{schedule};

/// After every list of events that can happen, a step by which a command ends with Full is of a command with an enqueue, whose
/// enqueues and the queued items of its caller passed the room at a moment since it began.
pub fn full_ends_a_command_above_the_room()
    ensures { (shape : Shape) (events : List Event) (s : State) (c : ℕ)
        → schedule shape (opening (lane_sizes shape)) 0 events ≡ Ok s → 0 < length (s.callers c).ops
        → ((next (lane_sizes shape) s c).callers c).point ≡ Idle → ((next (lane_sizes shape) s c).callers c).outcome ≡ Some Full
        → (0 < enqueue_count (s.callers c).ops)
        × AboveRoom shape.room (next (lane_sizes shape) s c).history c (s.callers c).started_at (enqueue_count (s.callers c).ops) }
{}
