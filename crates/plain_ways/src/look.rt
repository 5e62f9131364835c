// A look at the marks of a row: the machine's load of that word, which reads the marks straight from it. A search makes hundreds
// of them one after another.
ghost use Rattle.std.specs.Prelude.{◌≡◌};
ghost use Rattle.word_rows.specs.declared.content.Content.{Content};
ghost use Rattle.word_rows.specs.declared.location.Location.{Location};
ghost use Rattle.lane_steps.specs.declared.act.Act.{Act};
ghost use Rattle.lane_steps.specs.Step.{act};
ghost use Rattle.lane_rule.specs.Plays.{IsAt, Moves};

use bq_model::Shape;
use lane_rule::{Finds, Token, Words};
use word_rows::{Marks, mark};

/// The next step of the seat's caller, which loads the marks of this row. Gives them.
#[inline(always)]
pub fn load_marks(words: &Words, shape: &Shape, token: &mut Token, row: u32) -> Marks
    requires at { IsAt words.now.table_id words.now.key shape.now token.old.me.0.caller token.old.me.0.kept.point token.old }
    requires load { act token.old.me.0.caller token.old.me.0.kept.point ≡ Act.Load (Location.Mark row) }
    ensures { Moves token.old (Content.OfMark result) token.new }
{
    let found = words.load::<Finds>(token, mark(shape, row) as usize);
    match Marks::unpack(found) {
        Some(marks) => marks,
        // No other word lies there. That such a row isn't free costs a search no branch of its own.
        None => Marks {
            read: false,
            passed: false,
            free: false,
        },
    }
}
