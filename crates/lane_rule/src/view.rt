// What a pass knows of its lane.
ghost use Rattle.std.specs.Prelude.{List, []};
ghost use Rattle.bq_model.specs.declared.op.Op.{Op};

use atomic_table::{Join, Play, Split, TableRule};
use bq_model::{Answer, Group, Op, Shape};
use lane_steps::{CallEnd, Hold, Point};
use std::collections::LinkedList;
use std::marker::{Brand, PhantomData};

/// What a seat stands for.
pub enum Kind {
    /// It makes the callers from `caller` on.
    Maker,
    /// The one caller `caller`, which may run.
    Alone,
    /// The callers of `kept`, between two calls.
    Gathered,
    /// Nothing, since it was joined to another.
    Spent,
}

/// What the machine keeps of a caller.
pub struct Kept {
    pub point: Point,
    pub ops: LinkedList<Op>,
    pub mine: LinkedList<Group>,
    pub rows: LinkedList<u64>,
    pub values: LinkedList<u64>,
    pub walked: LinkedList<u64>,
    pub retired: LinkedList<u64>,
    pub named: LinkedList<u64>,
    pub row_hold: Hold,
    pub hold: Hold,
    pub outcome: Option<CallEnd>,
    pub answers: LinkedList<Answer>,
    pub started_at: u64,
    pub ended_at: Option<u64>,
}

/// A caller, and what is kept of it.
pub struct Held {
    pub caller: u64,
    pub kept: Kept,
}

/// What a seat knows. No value of it is made.
pub struct View {
    pub kind: Kind,
    pub caller: u64,
    pub kept: Kept,
    /// The ranks that the caller kept: with what its round rests on, and with what the round of its help rests on.
    pub outer: u64,
    pub inner: u64,
    /// The callers that were gathered.
    pub gathered: LinkedList<Held>,
    /// The history so far.
    pub seen: LinkedList<Group>,
    /// What the seat that was joined to this one had seen.
    pub heard: LinkedList<Group>,
    pub shape: Shape,
}

/// The words and views of a lane's table show a lawful lane.
pub struct LaneRule;

impl TableRule<u64, View, Shape> for LaneRule {
    ghost use Rattle.lane_rule.specs.Rule.{Ruled, opened};

    ghost holds = { Ruled };

    ghost first = { opened };
}

/// What a load, an exchange or a join tells: the machine's step on what it found.
pub struct Finds;

impl Play<u64, View> for Finds {
    ghost use Rattle.lane_rule.specs.Plays.{found};

    ghost then = { found };
}

/// What a store tells: the machine's step.
pub struct Stores;

impl Play<u64, View> for Stores {
    ghost use Rattle.lane_rule.specs.Plays.{wrote};

    ghost then = { wrote };
}

/// The operations of the command that a first step starts. Each call picks them.
pub trait Command {
    ghost ops: { List Op };
}

impl Command for Brand {
    ghost ops = { [] };
}

/// What the first step of a command tells, which is a load.
pub struct FirstFinds<C: Command> {
    of: PhantomData<C>,
}

impl<C: Command> Play<u64, View> for FirstFinds<C> {
    ghost use Rattle.lane_rule.specs.Plays.{began};

    ghost then = { began C.ops };
}

/// The maker makes one more caller.
pub struct Makes;

impl Split<View> for Makes {
    ghost use Rattle.lane_rule.specs.Seating.{made, newcomer_of};

    ghost left = { made };

    ghost right = { newcomer_of };
}

/// Two seats are joined.
pub struct Gathers;

impl Join<View> for Gathers {
    ghost use Rattle.lane_rule.specs.Seating.{joined, nothing};

    ghost both = { joined };

    ghost spent = { nothing };
}

/// What the load tells that ends a gathering: the whole history.
pub struct Learns;

impl Play<u64, View> for Learns {
    ghost use Rattle.lane_rule.specs.Plays.{learned};

    ghost then = { learned };
}
