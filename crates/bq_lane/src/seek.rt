// What follows the search for a free row, by what the row is for.
ghost use Rattle.lane_steps.specs.declared.point.Point.TheVariants.{Take};
ghost use Rattle.lane_steps.specs.declared.point.TakePoint.TheVariants.{LoadMark};
ghost use Rattle.lane_course.specs.Running.{Running, IsNext};
ghost use Rattle.lane_course.specs.Scratch.{SamePuts};

use batch_ways::{fill, stop};
use bq_model::Shape;
use lane_course::{Next, Scratch};
use lane_rule::{Token, Words};
use lane_steps::{Point, Taking};
use plain_ways::{find, put};

/// The steps of a command that searches for a free row, from this one on, with so many behind it.
pub fn seek(
    words: &Words,
    shape: &Shape,
    caller: u32,
    token: &mut Token,
    taking: Taking,
    first: u32,
    behind: u32,
    scratch: &mut Scratch,
) -> Next
    requires { Running words.now.table_id words.now.key shape.now caller (Take taking (LoadMark first behind)) scratch.old token.old }
    ensures next { IsNext words.now.table_id words.now.key shape.now caller scratch.new token.old token.new result }
    ensures same { SamePuts scratch.old scratch.new }
{
    match taking {
        Taking::Enqueue(value) => {
            let mut goes = Point::Idle;
            let end = put(
                words, shape, caller, token, value, first, behind, &mut goes, scratch,
            );
            Next::of(end, goes)
        }
        Taking::Batch(notice, value) => fill(
            words, shape, caller, token, notice, value, first, behind, scratch,
        ),
        Taking::Stopper(notice) => {
            stop(words, shape, caller, token, notice, first, behind, scratch)
        }
    }
}
