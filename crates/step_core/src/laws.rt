// Laws of schedules. Each is proved of every list of events; the functions do nothing.
ghost use Rattle.std.specs.Prelude.{◌≡◌, ℕ, List, [], map, Ok, Some};
ghost use Rattle.bq_model.specs.declared.group.Group.{Group};
ghost use Rattle.bq_model.specs.declared.shape.Shape.{Shape};
ghost use Rattle.bq_model.specs.Own.{mine};
ghost use Rattle.lane_steps.specs.declared.point.CallEnd.TheVariants.{Done};
ghost use Rattle.lane_steps.specs.declared.point.Point.TheVariants.{Idle};
ghost use Rattle.core_model.specs.Ended.{EndedDone};
ghost use Rattle.lane_steps.specs.LaneSizes.{lane_sizes};
ghost use Rattle.core_model.specs.Lawful.{Lawful};
ghost use Rattle.lane_steps.specs.Start.{opening};
ghost use Rattle.lane_steps.specs.State.{State};
ghost use Rattle.step_core.specs.declared.schedule.Event.{Event};
ghost use Rattle.step_core.specs.Schedule.{schedule};
ghost use Rattle.step_core.specs.Started.{all_started};

/// After every list of events that can happen, in whatever order the callers make their steps, the lane is lawful, and
/// each command that was done stands in the history once, with the replay's answers at its place.
pub fn every_schedule_leaves_a_lawful_lane()
    ensures lawful { (shape : Shape) (events : List Event) (s : State)
        → schedule shape (opening (lane_sizes shape)) 0 events ≡ Ok s → Lawful (lane_sizes shape) s }
    ensures done { (shape : Shape) (events : List Event) (s : State) (c : ℕ)
        → schedule shape (opening (lane_sizes shape)) 0 events ≡ Ok s → (s.callers c).point ≡ Idle → (s.callers c).outcome ≡ Some Done → EndedDone s c }
{}

/// After every such list the groups of an idle caller have, in order, the operations of the commands that it started and
/// that ended neither as Spent nor as Full.
pub fn groups_are_the_commands_that_were_started()
    ensures { (shape : Shape) (events : List Event) (s : State) (c : ℕ)
        → schedule shape (opening (lane_sizes shape)) 0 events ≡ Ok s → (s.callers c).point ≡ Idle
        → map (λ (g : Group). g.ops) (mine s.history c) ≡ all_started shape (opening (lane_sizes shape)) c [] events }
{}
