// Laws of the rank. Each is proved of every lane and every state; the functions do nothing.
ghost use Rattle.std.specs.Prelude.{◌≡◌, ◌≢◌, ◌⊎◌, ◌<◌, ◌≤◌, nat_lt, ℕ, suc, List, Some};
ghost use Rattle.bq_model.specs.declared.op.Op.{Op};
ghost use Rattle.bq_model.specs.declared.shape.Shape.{Shape};
ghost use Rattle.word_rows.specs.declared.content.Content.{Content};
ghost use Rattle.word_rows.specs.declared.head_word.HeadWord.TheVariants.{Ann};
ghost use Rattle.word_rows.specs.declared.link_word.LinkWord.TheVariants.{Chain};
ghost use Rattle.word_rows.specs.declared.location.Location.{Location};
ghost use Rattle.lane_steps.specs.declared.act.Act.TheVariants.{Exchange};
ghost use Rattle.lane_steps.specs.declared.point.Guarding.{Guarding};
ghost use Rattle.lane_steps.specs.declared.point.GuardPoint.TheVariants.{LoadAgain};
ghost use Rattle.lane_steps.specs.declared.point.Point.{Point};
ghost use Rattle.lane_steps.specs.declared.point.Point.TheVariants.{Idle, Guard};
ghost use Rattle.lane_steps.specs.Functions.{put};
ghost use Rattle.lane_steps.specs.Guard.{source, expected};
ghost use Rattle.lane_steps.specs.LaneSizes.{LaneSizes, lane_sizes};
ghost use Rattle.lane_steps.specs.Start.{start, opening};
ghost use Rattle.lane_steps.specs.State.{State, read};
ghost use Rattle.lane_steps.specs.Step.{act, next};
ghost use Rattle.core_model.specs.Lawful.{Lawful};
ghost use Rattle.core_model.specs.Shown.{is_decided};
ghost use Rattle.lane_rank.specs.Expected.{Keeps, kept_with};
ghost use Rattle.lane_rank.specs.Rank.{stage_of, rank, most_rank};
ghost use Rattle.lane_rank.specs.Return.{left, Ranked};
ghost use Rattle.lane_rank.specs.Runs.{MayBegin, Event, IsRun, state_after, GoesOn, steps_of, most_steps};

/// No step lowers the rank, a start leaves it, and it has a bound. An announcement in HEAD is decided where the stage is below 4;
/// at stage 0 its rows are linked behind TAIL, and at stage 1 its old tail is recorded, and TAIL is there.
pub fn no_step_lowers_the_rank()
    ensures up { (z : LaneSizes) (s : State) (c : ℕ) → Lawful z s → rank s ≤ rank (next z s c) }
    ensures start { (z : LaneSizes) (s : State) (c : ℕ) (ops : List Op) → rank (start z s c ops) ≡ rank s }
    ensures bound { (z : LaneSizes) (s : State) → Lawful z s → rank s ≤ most_rank z }
    ensures decided { (z : LaneSizes) (s : State) (a n : ℕ) → Lawful z s → s.memory.head ≡ Ann a n → is_decided s.memory a ≡ nat_lt (stage_of s.memory) 4 }
    ensures chain { (z : LaneSizes) (s : State) (a n : ℕ) → Lawful z s → s.memory.head ≡ Ann a n → stage_of s.memory ≡ 0
        → s.memory.link s.memory.tail.row ≡ Chain (s.memory.notice a).first }
    ensures old_tail { (z : LaneSizes) (s : State) (a n : ℕ) → Lawful z s → s.memory.head ≡ Ann a n → stage_of s.memory ≡ 1
        → s.memory.old_tail a ≡ Some s.memory.tail }
{}

/// What a caller expects of a word is there as long as the rank is not above the one that it kept, whoever makes steps; and each of
/// its own steps ends its command, or leaves less of it. So an exchange that fails finds a greater rank, and so does a second load
/// that finds another word than the first.
pub fn kept_words_are_there_or_the_rank_is_greater()
    ensures opening { (z : Shape) → Ranked z (opening (lane_sizes z)) (λ _. 0) (λ _. 0) }
    ensures step { (z : Shape) (s : State) (o i : ℕ → ℕ) (c : ℕ) → Ranked z s o i → c < z.callers
        → (o' : ℕ) × (i' : ℕ) × Ranked z (next (lane_sizes z) s c) (put o c o') (put i c i')
        × ((((next (lane_sizes z) s c).callers c).point ≡ Idle) ⊎ (left z ((next (lane_sizes z) s c).callers c) o' i' < left z (s.callers c) (o c) (i c))) }
    ensures start { (z : Shape) (s : State) (o i : ℕ → ℕ) (c : ℕ) (ops : List Op) → Ranked z s o i → MayBegin z s c ops
        → Ranked z (start (lane_sizes z) s c ops) (put o c (rank s)) (put i c (rank s)) }
    ensures failed { (s : State) (c : ℕ) (t : Point) (o i : ℕ) → Keeps s t o i → (l : Location) (old new : Content)
        → act c t ≡ Exchange l old new → read s.memory l ≢ old → kept_with t o i < rank s }
    ensures looked_again { (s : State) (g : Guarding) (o i : ℕ) → Keeps s (Guard g LoadAgain) o i → read s.memory (source g) ≢ expected g
        → kept_with (Guard g LoadAgain) o i < rank s }
{}

/// A command ends within so many steps of its own caller, whatever the other callers do or leave undone: within what is left of it
/// in a lane whose callers kept ranks, and so, in each run of a lane from its opening on, within a number that its sizes say.
pub fn each_command_ends()
    ensures from_here { (z : Shape) (s : State) (o i : ℕ → ℕ) (c : ℕ) → Ranked z s o i → (es : List Event) → GoesOn z c s es
        → steps_of c es ≤ suc (left z (s.callers c) (o c) (i c)) }
    ensures in_each_run { (z : Shape) (es : List Event) (c : ℕ) (ops : List Op) → IsRun z (opening (lane_sizes z)) es → MayBegin z (state_after z (opening (lane_sizes z)) es) c ops
        → (later : List Event) → GoesOn z c (start (lane_sizes z) (state_after z (opening (lane_sizes z)) es) c ops) later → steps_of c later ≤ most_steps z }
{}
