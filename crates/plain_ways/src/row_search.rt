// The search for a free row: one loop over the marks of the own rows of a kind.
ghost use Rattle.std.specs.Prelude.{◌<◌, IfSome, IfNone};
ghost use Rattle.lane_steps.specs.Step.{closes};
ghost use Rattle.lane_steps.specs.declared.point.Closing.TheVariants.{Full};
ghost use Rattle.lane_steps.specs.declared.point.Point.TheVariants.{Take};
ghost use Rattle.lane_steps.specs.declared.point.TakePoint.TheVariants.{LoadMark, ClearMark};
ghost use Rattle.lane_rule.specs.Goes.{left_of};
ghost use Rattle.lane_course.specs.Along.{Along};
ghost use Rattle.lane_course.specs.Led.{Led};
ghost use Rattle.lane_course.specs.Running.{Running};

use crate::look::load_marks;
use bq_model::Shape;
use lane_course::Scratch;
use lane_rule::{Token, Words};
use lane_steps::Taking;

/// The loads of a search for a free row, from this one on, with so many behind it. Gives the row, where one is free.
#[inline(always)]
pub fn find(
    words: &Words,
    shape: &Shape,
    caller: u32,
    token: &mut Token,
    taking: Taking,
    first: u32,
    behind: u32,
    scratch: &Scratch,
) -> Option<u32>
    requires { Running words.now.table_id words.now.key shape.now caller (Take taking (LoadMark first behind)) scratch.now token.old }
    ensures found { IfSome result (λ row. Along words.now.table_id words.now.key shape.now caller (Take taking (ClearMark row)) scratch.now token.old token.new) }
    ensures less { IfSome result (λ _. left_of token.new.me.0 < left_of token.old.me.0) }
    ensures lacks { IfNone result (Led words.now.table_id words.now.key shape.now caller (λ n k. closes n caller k Full) scratch.now token.old token.new) }
{
    let mut row = first;
    let mut left = behind;
    'rows: loop {
        let marks = load_marks(words, shape, token, row);
        if marks.free {
            return Some(row);
        }
        if left == 0 {
            return None;
        }
        row += 1;
        left -= 1;
    }
}
