// A lane's table as it is made, and the passes of its callers.
ghost use Rattle.std.specs.Prelude.{◌≡◌, ◌<◌, ◌≤◌, IfOk, [], length, map, vec_len};
ghost use Rattle.std.specs.List.{range_with_len};
ghost use Rattle.word_rows.specs.Sizes.{words_of};
ghost use Rattle.bq_lane.specs.Made.{AreOpening, maker_of};
ghost use Rattle.bq_lane.specs.Pass.{new_pass};

use crate::pass::Pass;
use bq_model::{OutOfMemory, Shape};
use lane_rule::{Token, Words, next_caller};
use std::alloc::Global;
use word_rows::opening_word;

/// The words of an empty lane.
pub fn opening_words(alloc: Global, shape: &Shape) -> Result<Vec<u64>, OutOfMemory>
    ensures { IfOk result (λ words. (vec_len words ≡ words_of shape.now) × AreOpening shape.now words.items) }
{
    let count = word_rows::words(shape);
    let mut words = Vec::with_capacity(alloc, count as usize)?;
    for index in 0..count {
        words.push_reserved(opening_word(shape, index));
    }
    Ok(words)
}

/// The passes of a new lane, one for each caller, in the order of their numbers.
pub fn make_passes(
    alloc: Global,
    words: &Words,
    maker: &mut Token,
    shape: &Shape,
) -> Result<Vec<Pass>, OutOfMemory>
    requires size { (words.now.key ≡ shape.now) × (words.now.table_id.words ≡ words_of shape.now) }
    requires maker { (maker.old.table_id ≡ words.now.table_id) × (maker.old.me ≡ (maker_of shape.now 0, [])) }
    ensures { IfOk result (λ passes. passes.items ≡ map (new_pass words.now.table_id shape.now) (range_with_len 0 shape.now.callers)) }
{
    let callers = shape.callers();
    let mut passes = Vec::with_capacity(alloc, callers as usize)?;
    for number in 0..callers {
        let token = next_caller(words, maker);
        passes.push_reserved(Pass::new(alloc, token, shape, number)?);
    }
    Ok(passes)
}
