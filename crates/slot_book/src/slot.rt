//! The record of the slot-by-slot book. Its room is taken once, in `new`.
ghost use Rattle.std.specs.Prelude.{◌≡◌, ◌≤◌, true, vec_len, vec_capacity};
ghost use Rattle.capacity.specs.Shortage.{short};
ghost use Rattle.capacity.specs.Slack.{rises};
ghost use Rattle.terms.specs.Limits.{most_boundaries};
ghost use Rattle.slot_book.specs.Spans.{spans_of, dues_of};

use crate::span::Span;
use capacity::Timeline;

/// A book that keeps the spare capacity of each interval, and mends it at every run.
#[derive(Drop)]
pub struct SlotBook {
    // The intervals to come lie one behind the other from the clock. What is due is worked out from their spares.
    pub(crate) time: Timeline,
    pub(crate) spans: Vec<Span>,
    // The spares are those of the demands that they tell.
    ghost fair: { spans_of time.clock (dues_of time.clock spans.items) ≡ spans.items },
    // The boundaries rise from the clock to the horizon.
    ghost ordered: { rises time.clock (dues_of time.clock spans.items) time.horizon ≡ true },
    // They take no more from before the clock than the slots that have passed, so no spare lies further below nought than the
    // slot where its interval begins. This bounds every number that is formed.
    ghost bounded: { short time.clock (dues_of time.clock spans.items) ≤ time.clock },
    ghost few: { vec_len spans ≤ most_boundaries },
    ghost room: { most_boundaries ≤ vec_capacity spans },
}
