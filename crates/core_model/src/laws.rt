// Laws of the pure machine. Each is proved of every lane and every state; the functions do nothing.
ghost use Rattle.std.specs.Prelude.{◌≡◌, ◌≢◌, ◌⊎◌, ◌*◌, ◌<◌, ◌^◌, ◌++◌, ℕ, List, [], ◌∷◌, length, get_or, ◌≤◌, Some, None, true, false};
ghost use Rattle.bq_model.specs.declared.group.Group.{Group};
ghost use Rattle.bq_model.specs.declared.op.Op.{Op};
ghost use Rattle.bq_model.specs.declared.shape.Shape.{Shape};
ghost use Rattle.bq_model.specs.History.{last_queue};
ghost use Rattle.bq_model.specs.Own.{mine};
ghost use Rattle.bq_model.specs.Values.{enqueued};
ghost use Rattle.word_rows.specs.declared.head_word.HeadWord.TheVariants.{Node, Ann};
ghost use Rattle.word_rows.specs.declared.link_word.LinkWord.TheVariants.{Nil};
ghost use Rattle.word_rows.specs.declared.location.Location.{Location};
ghost use Rattle.word_rows.specs.declared.place.Place.{Place};
ghost use Rattle.word_rows.specs.Contents.{MayHold};
ghost use Rattle.word_rows.specs.Homes.{IsHome};
ghost use Rattle.word_rows.specs.Opening.{opening_of};
ghost use Rattle.lane_steps.specs.declared.point.CallEnd.TheVariants.{Done};
ghost use Rattle.lane_steps.specs.declared.point.Closing.{Closing};
ghost use Rattle.lane_steps.specs.declared.point.ClosePoint.{ClosePoint};
ghost use Rattle.lane_steps.specs.declared.point.Help.{Help};
ghost use Rattle.lane_steps.specs.declared.point.Point.{Point};
ghost use Rattle.lane_steps.specs.declared.point.HelpPoint.{HelpPoint};
ghost use Rattle.lane_steps.specs.declared.point.Point.TheVariants.{Idle};
ghost use Rattle.node_guard.specs.Pick.{among};
ghost use Rattle.lane_steps.specs.declared.kind.StepKind.TheVariants.{StoreNodeHazard, StoreAnnHazard};
ghost use Rattle.lane_steps.specs.declared.point.BatchPoint.{BatchPoint};
ghost use Rattle.lane_steps.specs.declared.point.Draft.{Draft};
ghost use Rattle.lane_steps.specs.declared.point.FillPoint.{FillPoint};
ghost use Rattle.lane_steps.specs.declared.point.Notice.{Notice};
ghost use Rattle.lane_steps.specs.declared.point.Taking.{Taking};
ghost use Rattle.lane_steps.specs.declared.point.TakePoint.{TakePoint};
ghost use Rattle.core_model.specs.Held.{HoldsAnn, HoldsRow, BeginsHold, BeginsRowHold, Untouched, RowUntouched, chosen_by};
ghost use Rattle.lane_steps.specs.Kind.{kind_of};
ghost use Rattle.core_model.specs.Alone.{GoesOnOrEnds};
ghost use Rattle.lane_steps.specs.Coded.{IsCoded};
ghost use Rattle.core_model.specs.Ended.{EndedDone};
ghost use Rattle.lane_steps.specs.Fits.{ActFits};
ghost use Rattle.lane_steps.specs.LaneSizes.{LaneSizes, lane_sizes};
ghost use Rattle.core_model.specs.Lawful.{HelpsOwn, Lawful};
ghost use Rattle.core_model.specs.Noted.{Begins, IsNoted};
ghost use Rattle.core_model.specs.Once.{times};
ghost use Rattle.core_model.specs.Uses.{Use, IsUsed, IsListed, LacksMark};
ghost use Rattle.lane_steps.specs.Ranges.{IsWord, CountsFit, NamesRows};
ghost use Rattle.lane_steps.specs.Start.{PassesAllowance, IsCommand, start, opening};
ghost use Rattle.lane_steps.specs.Batches.{owner_of};
ghost use Rattle.core_model.specs.Facts.{Describes};
ghost use Rattle.core_model.specs.Saying.{Says};
ghost use Rattle.core_model.specs.Shown.{Shows};
ghost use Rattle.lane_steps.specs.State.{State, command, read, own_group};
ghost use Rattle.lane_steps.specs.Step.{act, target, added_by, next};

/// An empty lane is lawful, and it stays so at each step of each caller and at each start of a command.
pub fn each_event_keeps_the_lane_lawful()
    ensures opening { (shape : Shape) → Lawful (lane_sizes shape) (opening (lane_sizes shape)) }
    ensures step { (z : LaneSizes) (s : State) (c : ℕ) → Lawful z s → Lawful z (next z s c) }
    ensures start { (z : LaneSizes) (s : State) (c : ℕ) (ops : List Op) → Lawful z s → IsCommand ops → (s.callers c).point ≡ Idle → c < z.callers
        → ¬ (PassesAllowance z (s.callers c) (length ops)) → Lawful z (start z s c ops) }
{}

/// A step changes what its own caller keeps, and no other caller's. The history grows at its end, by one group at most.
pub fn a_step_is_its_callers_alone()
    ensures others { (z : LaneSizes) (s : State) (c d : ℕ) → d ≢ c → (next z s c).callers d ≡ s.callers d }
    ensures history { (z : LaneSizes) (s : State) (c : ℕ) → (next z s c).history
        ≡ s.history ++ added_by z s.callers c (s.callers c).point (read s.memory (target c (s.callers c).point)) }
    ensures own_command { (z : LaneSizes) (s : State) (c : ℕ) → GoesOnOrEnds c (s.callers c) ((next z s c).callers c) }
{}

/// A start keeps the given operations and the moment, and leaves the retired rows. A step leaves all this, or ends the command:
/// with Done, and its group joins the caller's, or with Full, and the caller has made no group.
pub fn starts_and_ends_are_noted()
    ensures begins { (z : LaneSizes) (s : State) (c : ℕ) (ops : List Op) → Begins (length s.history) ops (s.callers c) ((start z s c ops).callers c) }
    ensures step { (z : LaneSizes) (s : State) (c : ℕ) → IsNoted (length (next z s c).history) c (s.callers c) ((next z s c).callers c) }
{}

/// A step leaves every word but its own.
pub fn a_step_stores_into_one_word()
    ensures { (z : LaneSizes) (s : State) (c : ℕ) (l : Location) → l ≢ target c (s.callers c).point → read (next z s c).memory l ≡ read s.memory l }
{}

/// An empty lane holds what its table opens with, and a row is its home's.
pub fn a_lane_opens_as_its_table()
    ensures opening { (shape : Shape) (l : Location) → read (opening (lane_sizes shape)).memory l ≡ opening_of shape l }
    ensures home { (shape : Shape) (c r : ℕ) → IsHome shape c r → (lane_sizes shape).home r ≡ c }
{}

/// In a lawful lane a command that was done has its group in the history, once, and its answers are the replay's there.
/// The groups of an idle caller are those of its commands that were done, so one that ended with Full has none.
pub fn ended_commands_stand_in_the_history()
    ensures done { (z : LaneSizes) (s : State) (c : ℕ) → Lawful z s → (s.callers c).point ≡ Idle → (s.callers c).outcome ≡ Some Done → EndedDone s c }
    ensures full { (z : LaneSizes) (s : State) (c : ℕ) → Lawful z s → (s.callers c).outcome ≢ Some Done → (s.callers c).answers ≡ [] }
    ensures own_groups { (z : LaneSizes) (s : State) (c : ℕ) → Lawful z s → (s.callers c).point ≡ Idle → mine s.history c ≡ (s.callers c).mine }
    ensures once { (z : LaneSizes) (s : State) (before behind : List Group) (g : Group) → Lawful z s
        → s.history ≡ (before ++ g ∷ []) ++ behind → times g s.history ≡ 1 }
{}

/// In a lawful lane each step touches a word of the lane and finds in it what is in range, and no count passes the limit.
pub fn counts_stay_in_range()
    ensures word { (shape : Shape) (s : State) (c : ℕ) → Lawful (lane_sizes shape) s → IsWord (lane_sizes shape).rows (lane_sizes shape).callers ((lane_sizes shape).callers * (lane_sizes shape).callers) (target c (s.callers c).point) }
    ensures found { (shape : Shape) (s : State) (c : ℕ) → Lawful (lane_sizes shape) s → NamesRows (lane_sizes shape).rows (target c (s.callers c).point) (read s.memory (target c (s.callers c).point)) }
    ensures raised { (shape : Shape) (s : State) (c : ℕ) → Lawful (lane_sizes shape) s → CountsFit (s.callers c).point }
    ensures tail { (shape : Shape) (s : State) → Lawful (lane_sizes shape) s → s.memory.tail.count < 2 ^ 44 }
    ensures head { (shape : Shape) (s : State) (p : Place) → Lawful (lane_sizes shape) s → s.memory.head ≡ Node p → p.count < 2 ^ 44 }
    ensures announced { (shape : Shape) (s : State) (a n : ℕ) → Lawful (lane_sizes shape) s → s.memory.head ≡ Ann a n → n < 2 ^ 44 }
{}

/// Each word of the table may hold what it holds in an empty lane, and so after each step and each start of a command of no
/// more operations than the lane takes. What a step finds may stand in its word, and so may what it expects there and what
/// it stores: all of it can be packed.
pub fn words_can_be_coded()
    ensures opening { (shape : Shape) → IsCoded shape (opening (lane_sizes shape)) }
    ensures step { (shape : Shape) (s : State) (c : ℕ) → Lawful (lane_sizes shape) s → IsCoded shape s → IsCoded shape (next (lane_sizes shape) s c) }
    ensures start { (shape : Shape) (s : State) (c : ℕ) (ops : List Op) → Lawful (lane_sizes shape) s → IsCoded shape s → IsCommand ops → (s.callers c).point ≡ Idle → c < shape.callers
        → ¬ (PassesAllowance (lane_sizes shape) (s.callers c) (length ops)) → length ops ≤ shape.batch → ((j : ℕ) → get_or (enqueued ops) j 0 < 2 ^ 64)
        → IsCoded shape (start (lane_sizes shape) s c ops) }
    ensures found { (shape : Shape) (s : State) (c : ℕ) → Lawful (lane_sizes shape) s → IsCoded shape s
        → MayHold shape (target c (s.callers c).point) (read s.memory (target c (s.callers c).point)) }
    ensures stored { (shape : Shape) (s : State) (c : ℕ) → Lawful (lane_sizes shape) s → IsCoded shape s → ActFits shape (act c (s.callers c).point) }
{}

/// The words of a lawful lane show the last queue of its history, also while an announcement stands in HEAD.
pub fn words_show_the_last_queue()
    ensures { (z : LaneSizes) (s : State) → Lawful z s → Shows s.memory (last_queue s.history) }
{}

/// An announcement that stands in HEAD says what the running command of its owner is, and where its dummy, its rows and its
/// old tail are. The step that links its chain or its stopper adds the group of that command to the history, whichever
/// caller makes it, and so does the step that decides it without a link.
pub fn announced_batch_is_its_owners()
    ensures told { (z : LaneSizes) (s : State) (a n : ℕ) → Lawful z s → s.memory.head ≡ Ann a n
        → Describes (owner_of z a) (command (s.callers (owner_of z a))) (s.memory.notice a) }
    ensures says { (z : LaneSizes) (s : State) (a n : ℕ) → Lawful z s → s.memory.head ≡ Ann a n → Says z s.memory a n }
    ensures added { (z : LaneSizes) (s : State) (c : ℕ) (h : Help) (p : Place) → (s.callers c).point ≡ Point.Help h (HelpPoint.LinkChain p) → s.memory.link p.row ≡ Nil
        → (next z s c).history ≡ s.history ++ own_group (owner_of z h.ann) (s.callers (owner_of z h.ann)) ∷ [] }
    ensures decided { (z : LaneSizes) (s : State) (c : ℕ) (h : Help) (p : Place) → (s.callers c).point ≡ Point.Help h (HelpPoint.Decide p) → s.memory.old_tail h.ann ≡ None
        → (next z s c).history ≡ s.history ++ own_group (owner_of z h.ann) (s.callers (owner_of z h.ann)) ∷ [] }
{}

/// A caller holds an announcement from its second load of HEAD on, which found that there still, until it stores its hazard
/// word again. While it does, its hazard word names it. No step of any caller gives it for a new use, or rewrites a word of
/// it, but that OldTail is recorded once. An announcement of which a word is stored is the caller's own, and isn't in HEAD.
/// What a caller has read in the hazard words of others stays right until its announcement is installed: nobody comes to
/// hold one of its announcements, and nobody holds the one that it has chosen.
pub fn held_announcements_are_left()
    ensures begins { (z : LaneSizes) (s : State) (c a : ℕ) → Lawful z s → HoldsAnn ((next z s c).callers c) a → HoldsAnn (s.callers c) a ⊎ BeginsHold s c a }
    ensures ends { (z : LaneSizes) (s : State) (c a : ℕ) → Lawful z s → HoldsAnn (s.callers c) a
        → HoldsAnn ((next z s c).callers c) a ⊎ (kind_of (s.callers c).point ≡ Some StoreAnnHazard) }
    ensures starts { (z : LaneSizes) (s : State) (c d : ℕ) (ops : List Op) → ((start z s c ops).callers d).hold ≡ (s.callers d).hold }
    ensures named { (z : LaneSizes) (s : State) (c a : ℕ) → Lawful z s → HoldsAnn (s.callers c) a → s.memory.ann_hazard c ≡ Some a }
    ensures left { (z : LaneSizes) (s : State) (c e a : ℕ) → Lawful z s → HoldsAnn (s.callers e) a → Untouched s.memory (next z s c).memory a }
    ensures own { (z : LaneSizes) (s : State) (c n : ℕ) (d : Draft) (p : BatchPoint) → Lawful z s → (s.callers c).point ≡ Point.Batch d p
        → (owner_of z d.ann ≡ c) × (s.memory.head ≢ Ann d.ann n) }
    ensures not_given { (z : LaneSizes) (s : State) (c e : ℕ) (d : Draft) (p : BatchPoint) → Lawful z s → (s.callers c).point ≡ Point.Batch d p
        → ¬ (HoldsAnn (s.callers e) d.ann) }
    ensures kept { (z : LaneSizes) (s : State) (c e a : ℕ) → Lawful z s → chosen_by (s.callers c).point ≡ Some a → ¬ (HoldsAnn (s.callers e) a) }
    ensures read { (z : LaneSizes) (s : State) (c d a : ℕ) (n : Notice) → Lawful z s → (s.callers c).point ≡ Point.Fill n (FillPoint.LoadHazard d)
        → s.memory.ann_hazard d ≢ Some a → ¬ (HoldsAnn (s.callers d) a) }
    ensures scan { (z : LaneSizes) (s : State) (c d e a : ℕ) (n : Notice) → Lawful z s → (s.callers c).point ≡ Point.Fill n (FillPoint.LoadHazard e)
        → d < e → d ≢ c → owner_of z a ≡ c → among (s.callers c).named a ≡ false → ¬ (HoldsAnn (s.callers d) a) }
    ensures stays { (z : LaneSizes) (s : State) (c d e a : ℕ) → Lawful z s → ¬ (HelpsOwn (s.callers c).point) → owner_of z a ≡ c
        → ¬ (HoldsAnn (s.callers d) a) → ¬ (HoldsAnn ((next z s e).callers d) a) }
{}

/// A caller holds a row from its second load of HEAD or TAIL on, which found the row's place there still, until it stores its
/// NODE_HAZARD again. While it does, its NODE_HAZARD names it, and the row isn't FREE. No step of any caller gives it, frees
/// it, or rewrites its value, or a link of it that isn't Nil. What a caller has read in the NODE_HAZARD words at the end of its
/// call stays right until it has freed the last row: whose word named none of its retired rows but those that it found named
/// holds no other, and nobody comes to hold one.
pub fn held_rows_are_left()
    ensures begins { (z : LaneSizes) (s : State) (c r : ℕ) → Lawful z s → HoldsRow ((next z s c).callers c) r → HoldsRow (s.callers c) r ⊎ BeginsRowHold s c r }
    ensures ends { (z : LaneSizes) (s : State) (c r : ℕ) → Lawful z s → HoldsRow (s.callers c) r
        → HoldsRow ((next z s c).callers c) r ⊎ (kind_of (s.callers c).point ≡ Some StoreNodeHazard) }
    ensures starts { (z : LaneSizes) (s : State) (c d : ℕ) (ops : List Op) → ((start z s c ops).callers d).row_hold ≡ (s.callers d).row_hold }
    ensures named { (z : LaneSizes) (s : State) (c r : ℕ) → Lawful z s → HoldsRow (s.callers c) r → s.memory.node_hazard c ≡ Some r }
    ensures not_free { (z : LaneSizes) (s : State) (c r : ℕ) → Lawful z s → HoldsRow (s.callers c) r → (s.memory.mark r).free ≡ false }
    ensures left { (z : LaneSizes) (s : State) (c e r : ℕ) → Lawful z s → HoldsRow (s.callers e) r → RowUntouched s.memory (next z s c).memory r }
    ensures not_given { (z : LaneSizes) (s : State) (c e r : ℕ) (t : Taking) → Lawful z s → (s.callers c).point ≡ Point.Take t (TakePoint.ClearMark r) → ¬ (HoldsRow (s.callers e) r) }
    ensures not_freed { (z : LaneSizes) (s : State) (c e r : ℕ) (a : Closing) → Lawful z s → (s.callers c).point ≡ Point.Close a (ClosePoint.MarkFree r) → ¬ (HoldsRow (s.callers e) r) }
    ensures read { (z : LaneSizes) (s : State) (c d r : ℕ) → Lawful z s → s.memory.node_hazard d ≢ Some r → ¬ (HoldsRow (s.callers d) r) }
    ensures scan { (z : LaneSizes) (s : State) (c d e r : ℕ) (a : Closing) → Lawful z s → (s.callers c).point ≡ Point.Close a (ClosePoint.LoadHazard e)
        → d < e → among (s.callers c).retired r ≡ true → among (s.callers c).named r ≡ false → ¬ (HoldsRow (s.callers d) r) }
    ensures frees { (z : LaneSizes) (s : State) (c d q r : ℕ) (a : Closing) → Lawful z s → (s.callers c).point ≡ Point.Close a (ClosePoint.MarkFree q)
        → among (s.callers c).retired r ≡ true → among (s.callers c).named r ≡ false → ¬ (HoldsRow (s.callers d) r) }
    ensures stays { (z : LaneSizes) (s : State) (c d e r : ℕ) → Lawful z s → among (s.callers c).retired r ≡ true
        → ¬ (HoldsRow (s.callers d) r) → ¬ (HoldsRow ((next z s e).callers d) r) }
{}

/// Each row of a lawful lane is used in one way, and in one alone. It is free; or its home, whose call runs, took it and has
/// not linked it; or it is in the list, from the dummy on; or the head has passed it, and a caller whose call runs has yet to
/// set READ or PASSED on it; or it is in the retired list of one caller, with both of these set and FREE not. In the list, and
/// until both marks are set, no step rewrites its value, or a link of it that isn't Nil.
pub fn each_row_has_one_use()
    ensures one { (z : LaneSizes) (s : State) (r : ℕ) (lawful : Lawful z s) → r < z.rows
        → (u : Use) × IsUsed z s lawful.ghost r u × ((v : Use) → IsUsed z s lawful.ghost r v → v ≡ u) }
    ensures left { (z : LaneSizes) (s : State) (c r : ℕ) (lawful : Lawful z s)
        → IsListed z s lawful.ghost r ⊎ LacksMark z s lawful.ghost r → RowUntouched s.memory (next z s c).memory r }
{}
