// What a step does with its word.
ghost use Rattle.std.specs.Prelude.{◌≡◌, ◌^◌, ◌<◌};
ghost use Rattle.lane_steps.specs.Act.{location, effect, by_one};

use crate::found::{behind, mark_in};
use word_rows::{Content, Location, Marks, Place};

/// What a step does with its word.
#[derive(Clone, Copy)]
pub enum Act {
    /// It reads the word.
    Load(Location),
    /// It stores this.
    Store(Location, Content),
    /// It stores the second where it finds the first.
    Exchange(Location, Content, Content),
    /// It sets these bits in the marks of the row.
    Join { row: u32, marks: Marks },
}

impl Act {
    /// The word of the step.
    pub fn location(self) -> Location
        ensures { result ≡ location self }
    {
        match self {
            Act::Load(word) | Act::Store(word, _) | Act::Exchange(word, ..) => word,
            Act::Join { row, .. } => Location::Mark { row },
        }
    }

    /// What the word has after the step that found this in it.
    pub fn effect(self, found: Content) -> Content
        ensures { result ≡ effect self found }
    {
        match self {
            Act::Load(_) => found,
            Act::Store(_, content) => content,
            Act::Exchange(_, old, new) => { if found == old { new } else { found } }
            Act::Join { marks, .. } => Content::OfMark(mark_in(found).joined(marks)),
        }
    }
}

/// The exchange of the tail by one row.
pub fn by_one(tail: Place, row: u32) -> Act
    requires { tail.count < 2 ^ 44 }
    ensures { result ≡ by_one tail row }
{
    Act::Exchange(
        Location::Tail,
        Content::OfTail(tail),
        Content::OfTail(behind(tail, row)),
    )
}
