// The spans in which one caller makes its futures.
ghost use Rattle.std.specs.Prelude.{Some, None, OnOk, OnErr};
ghost use Rattle.std.specs.Bool.{Decides};
ghost use Rattle.std.specs.BTreeMap.{IsUnchanged};
ghost use Rattle.trace_conditions.specs.Stamps.{IsBefore};
ghost use Rattle.trace_conditions.specs.Spans.{AreInTurn, IsLastBegun, MeetsNone, IsAdded, IsOver};

use bq_model::OutOfMemory;
use std::collections::BTreeMap;
use std::ops::Bound;

/// The spans of one caller's makings, each by its beginning, with its end.
pub type Spans = BTreeMap<u64, Option<u64>>;

fn is_over(returned: Option<u64>, made: u64) -> bool
    ensures { Decides result (IsOver returned made) }
{
    match returned {
        Some(returned) => returned < made,
        None => false,
    }
}

// The last span that begins at this stamp or before it.
fn last_begun_by(spans: &Spans, stamp: u64) -> Option<(u64, Option<u64>)>
    ensures { IsLastBegun spans.now (Some stamp) result }
{
    let (made, returned) = spans
        .range((Bound::Unbounded, Bound::Included(stamp)))
        .next_back()?;
    Some((*made, *returned))
}

// The last span.
fn last_begun(spans: &Spans) -> Option<(u64, Option<u64>)>
    ensures { IsLastBegun spans.now None result }
{
    let (made, returned) = spans.last_key_value()?;
    Some((*made, *returned))
}

fn last_begun_before(spans: &Spans, returned: Option<u64>) -> Option<(u64, Option<u64>)>
    ensures { IsLastBegun spans.now returned result }
{
    match returned {
        Some(returned) => last_begun_by(spans, returned),
        None => last_begun(spans),
    }
}

/// Whether this span meets none of the others. Of those that begin before its end the last one ends last, so that one alone is
/// looked at; it takes log n steps for n spans.
pub fn meets_none(spans: &Spans, made: u64, returned: Option<u64>) -> bool
    requires in_turn { AreInTurn spans.now }
    requires ends { IsBefore made returned }
    ensures { Decides result (MeetsNone spans.now made returned) }
{
    match last_begun_before(spans, returned) {
        Some((_, till)) => is_over(till, made),
        None => true,
    }
}

/// Adds a span that meets none of the others.
pub fn add_span(spans: &mut Spans, made: u64, returned: Option<u64>) -> Result<(), OutOfMemory>
    requires in_turn { AreInTurn spans.old }
    requires ends { IsBefore made returned }
    requires apart { MeetsNone spans.old made returned }
    ensures added { OnOk result (IsAdded spans.old made returned spans.new) }
    ensures in_turn { OnOk result (AreInTurn spans.new) }
    ensures refused_changes_nothing { OnErr result (IsUnchanged spans.old spans.new) }
{
    spans.insert(made, returned)?;
    Ok(())
}
