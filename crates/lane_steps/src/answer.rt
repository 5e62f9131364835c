// The answers of a batch: its owner, which has helped it, loads the values that its dequeues got.
ghost use Rattle.std.specs.Prelude.{◌≡◌};
ghost use Rattle.lane_steps.specs.Answer.{act, reading, after_old_tail, after_link, course, kind_of};

use crate::act::Act;
use crate::count::{before_it, gets, is_stopped, linked_rows};
use crate::course::Course;
use crate::found::{link_in, old_tail_in, value_in};
use crate::kind::StepKind;
use crate::point::{AnswerPoint, Help, Point, Reading};
use word_rows::{AnnField, Content, LinkWord, Location, Place};

// The reading of its batch, which was on so many values.
fn reading(help: Help, queued: u64) -> Reading
    ensures { result ≡ reading help queued }
{
    Reading {
        dummy: help.old_head,
        queued,
        stopped: is_stopped(help.counts, queued),
    }
}

// It found this in OldTail.
fn after_old_tail(help: Help, old_tail: Option<Place>) -> Course
    ensures { result ≡ after_old_tail help old_tail }
{
    match old_tail {
        None => Course::GoesOn(Point::Answer(AnswerPoint::LoadOldTail(help))),
        Some(known) => {
            let queued = before_it(help, known);
            Course::Reads {
                reading: reading(help, queued),
                row: help.old_head.row,
                left: gets(help.counts, queued),
                linked: 0 < linked_rows(help.counts, queued),
            }
        }
    }
}

// It found this behind a row, with so many values to go behind the next one.
fn after_link(reading: Reading, row: u32, left: u32, link: LinkWord) -> AnswerPoint
    ensures { result ≡ after_link reading row left link }
{
    match link {
        LinkWord::Single(next) | LinkWord::Chain(next) => AnswerPoint::LoadValue {
            reading,
            row: next,
            left,
        },
        LinkWord::Nil | LinkWord::Shut => AnswerPoint::LoadLink { reading, row, left },
    }
}

impl AnswerPoint {
    /// What the next step does with its word.
    pub fn act(self) -> Act
        ensures { result ≡ act self }
    {
        Act::Load(match self {
            AnswerPoint::LoadOldTail(help) => Location::AnnWord {
                ann: help.ann,
                field: AnnField::OldTail,
            },
            AnswerPoint::LoadLink { row, .. } => Location::Link { row },
            AnswerPoint::LoadValue { row, .. } => Location::Value { row },
        })
    }

    /// What becomes of the call after the step that found this in its word.
    pub fn course(self, found: Content) -> Course
        ensures { result ≡ course self found }
    {
        match self {
            AnswerPoint::LoadOldTail(help) => after_old_tail(help, old_tail_in(found)),
            AnswerPoint::LoadLink { reading, row, left } => Course::GoesOn(Point::Answer(after_link(
                reading,
                row,
                left,
                link_in(found),
            ))),
            AnswerPoint::LoadValue { reading, row, left } => Course::ReadsMore {
                reading,
                row,
                left,
                value: value_in(found),
            },
        }
    }

    /// The kind of the next step.
    pub fn kind(self) -> StepKind
        ensures { result ≡ kind_of self }
    {
        match self {
            AnswerPoint::LoadOldTail(_) => StepKind::LoadAnn,
            AnswerPoint::LoadLink { .. } => StepKind::LoadLink,
            AnswerPoint::LoadValue { .. } => StepKind::LoadValue,
        }
    }
}
