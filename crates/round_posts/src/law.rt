// The rule of a parker whose posts and takes are counted, and its steps.
ghost use Rattle.round_posts.specs.Law.{IsPosted, tally};
ghost use Rattle.std.specs.Prelude.{◌≡◌, ◌+◌};

use atomic_table::Split;
use crossbeam_utils::rule::{Outcome, Protocol};

/// What a pass of the parker has done: how often it posted, and how often it took.
pub struct Tally {
    posts: u64,
    takes: u64,
}

/// What was taken, and the token that is set, were posted.
pub struct Law;

impl Protocol<bool, Tally> for Law {
    ghost holds = { IsPosted };

    ghost first = { tally 0 0 };
}

/// The step that sets the token.
pub struct Posts;

impl Outcome<bool, Tally> for Posts {
    ghost then = { λ before _ _ after. after ≡ tally (before.posts + 1) before.takes };
}

/// The step that takes the token.
pub struct Takes;

impl Outcome<bool, Tally> for Takes {
    ghost then = { λ before _ _ after. after ≡ tally before.posts (before.takes + 1) };
}

/// One part keeps the posts, and the other one the takes.
pub struct Parts;

impl Split<Tally> for Parts {
    ghost left = { λ whole. tally whole.posts 0 };

    ghost right = { λ whole. tally 0 whole.takes };
}
