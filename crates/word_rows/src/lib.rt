//! The words of a lane: what each one holds, how it is coded in 64 bits, and where it lies in the lane's table.
//!
//! What a word can hold, each with its packing: `place`, `head_word` and `link_word`, which `packing` helps;
//! `marks` and `hazard`; and for an announcement `old_tail`, `batch_words` and `order`. `location` names the words of
//! a lane, `content` has what any of them can hold, and `opening` what they hold at the beginning. `sizes` says how
//! many rows and words there are, `index` where each word lies, and `homes` whose each row and announcement is. The
//! definitions stand in `specs/`, and `laws` has what they come to.
#![tactic(auto)]

mod batch_words;
mod content;
mod hazard;
mod head_word;
mod homes;
mod index;
mod laws;
mod link_word;
mod location;
mod marks;
mod old_tail;
mod opening;
mod order;
mod packing;
mod place;
mod sizes;
#[cfg(test)]
mod tests;

pub use batch_words::{BatchNumber, pack_counts, unpack_counts};
pub use content::Content;
pub use hazard::{pack_hazard, unpack_hazard};
pub use head_word::HeadWord;
pub use homes::{RowKind, ann_owner, home, item_row, own_ann, row_kind, stopper_row};
pub use index::{ann_hazard, ann_word, head, link, mark, node_hazard, tail, value};
pub use laws::{
    another_content_is_coded_otherwise, another_word_lies_at_another_index,
    exchange_of_words_is_that_of_contents, no_lane_is_larger, one_write_changes_one_word,
    three_writes_leave_the_rest,
};
pub use link_word::LinkWord;
pub use location::{AnnField, Location};
pub use marks::Marks;
pub use old_tail::{pack_old_tail, unpack_old_tail};
pub use opening::{opening_content, opening_word};
pub use order::{is_enqueue_in, order_word};
pub use place::Place;
pub use sizes::{anns, items, rows, stoppers, words};
