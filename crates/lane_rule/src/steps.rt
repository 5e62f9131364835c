// One step of the machine on the table of a lane.
ghost use Rattle.std.specs.Prelude.{◌≡◌, ◌<◌, ◌^◌};
ghost use Rattle.word_rows.specs.declared.content.Content.{Content};
ghost use Rattle.lane_steps.specs.Step.{act};
ghost use Rattle.lane_rule.specs.Plays.{IsAt, IsIdle, Moves, Starts};

use crate::view::{Command, Finds, FirstFinds, LaneRule, Stores, View};
use atomic_table::{Seat, Shared};
use bq_model::Shape;
use lane_steps::{Act, Point};
use word_rows::{Content, Location, Marks};

/// The table of a lane, as its callers share it.
pub type Words = Shared<u64, View, Shape, LaneRule>;

/// What a caller steps with.
pub type Token = Seat<u64, View>;

/// The next step of the seat's caller, which loads this word. Gives what it found.
#[inline(always)]
pub fn load(words: &Words, shape: &Shape, token: &mut Token, location: Location) -> Content
    requires at { IsAt words.now.table_id words.now.key shape.now token.old.me.0.caller token.old.me.0.kept.point token.old }
    requires load { act token.old.me.0.caller token.old.me.0.kept.point ≡ Act.Load location }
    ensures { Moves token.old result token.new }
{
    let found = words.load::<Finds>(token, location.index(shape) as usize);
    Content::unpack(location, found).unwrap()
}

/// The next step of the seat's caller, which stores this in this word.
#[inline(always)]
pub fn store(words: &Words, shape: &Shape, token: &mut Token, location: Location, new: Content)
    requires at { IsAt words.now.table_id words.now.key shape.now token.old.me.0.caller token.old.me.0.kept.point token.old }
    requires store { act token.old.me.0.caller token.old.me.0.kept.point ≡ Act.Store location new }
    ensures { Moves token.old new token.new }
{
    words.store::<Stores>(token, location.index(shape) as usize, new.pack());
}

/// The next step of the seat's caller, which exchanges this word where that has `old`. Gives what it found.
#[inline(always)]
pub fn exchange(
    words: &Words,
    shape: &Shape,
    token: &mut Token,
    location: Location,
    old: Content,
    new: Content,
) -> Content
    requires at { IsAt words.now.table_id words.now.key shape.now token.old.me.0.caller token.old.me.0.kept.point token.old }
    requires exchange { act token.old.me.0.caller token.old.me.0.kept.point ≡ Act.Exchange location old new }
    ensures { Moves token.old result token.new }
{
    let found = words.compare_exchange::<Finds>(
        token,
        location.index(shape) as usize,
        old.pack(),
        new.pack(),
    );
    Content::unpack(location, found).unwrap()
}

/// The next step of the seat's caller, which sets these marks of a row. Gives what it found.
#[inline(always)]
pub fn join(words: &Words, shape: &Shape, token: &mut Token, row: u32, marks: Marks) -> Content
    requires at { IsAt words.now.table_id words.now.key shape.now token.old.me.0.caller token.old.me.0.kept.point token.old }
    requires join { act token.old.me.0.caller token.old.me.0.kept.point ≡ Act.Join row marks }
    ensures { Moves token.old result token.new }
{
    let location = Location::Mark { row };
    let found = words.fetch_or::<Finds>(token, location.index(shape) as usize, marks.pack());
    Content::unpack(location, found).unwrap()
}

/// The next step of this caller, whose token it is and which is at this point. Gives what the step found; a store gives what it stored.
pub fn step(words: &Words, shape: &Shape, caller: u32, token: &mut Token, point: Point) -> Content
    requires { IsAt words.now.table_id words.now.key shape.now caller point token.old }
    ensures { Moves token.old result token.new }
{
    match point.act(caller) {
        Act::Load(location) => load(words, shape, token, location),
        Act::Store(location, new) => {
            store(words, shape, token, location, new);
            new
        }
        Act::Exchange(location, old, new) => exchange(words, shape, token, location, old, new),
        Act::Join { row, marks } => join(words, shape, token, row, marks),
    }
}

/// The start of a command of this idle caller, which begins at this point, and its first step, a load, both in one. Gives what
/// it found.
#[inline(always)]
pub fn first_load<C: Command>(
    words: &Words,
    shape: &Shape,
    caller: u32,
    token: &mut Token,
    point: Point,
    location: Location,
) -> Content
    requires idle { IsIdle words.now.table_id words.now.key shape.now caller C.ops point token.old }
    requires load { act caller point ≡ Act.Load location }
    ensures { Starts token.old C.ops result token.new }
{
    let found = words.load::<FirstFinds<C>>(token, location.index(shape) as usize);
    Content::unpack(location, found).unwrap()
}

/// The start of a command of this idle caller, which begins at this point, and its first step, both in one. Gives
/// what the step found.
pub fn first_step<C: Command>(
    words: &Words,
    shape: &Shape,
    caller: u32,
    token: &mut Token,
    point: Point,
) -> Content
    requires { IsIdle words.now.table_id words.now.key shape.now caller C.ops point token.old }
    ensures { Starts token.old C.ops result token.new }
{
    match point.act(caller) {
        Act::Load(location) => first_load::<C>(words, shape, caller, token, point, location),
        Act::Store(..) | Act::Exchange(..) | Act::Join { .. } => unreachable!(),
    }
}
