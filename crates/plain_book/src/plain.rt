//! The record of the plain book. Its room is taken once, in `new`.
ghost use Rattle.std.specs.Prelude.{◌≡◌, ◌≤◌, true, vec_len, vec_capacity};
ghost use Rattle.capacity.specs.Shortage.{short};
ghost use Rattle.capacity.specs.Slack.{rises};
ghost use Rattle.terms.specs.Limits.{most_boundaries};

use capacity::{Boundary, Timeline};

/// A book that keeps the demand due at each boundary, and works spare capacity out for each question.
#[derive(Drop)]
pub struct PlainBook {
    pub(crate) time: Timeline,
    pub(crate) boundaries: Vec<Boundary>,
    // The boundaries rise from the clock to the horizon.
    ghost ordered: { rises time.clock boundaries.items time.horizon ≡ true },
    // They take no more from before the clock than the slots that have passed, so that no latest start lies before 0.
    ghost bounded: { short time.clock boundaries.items ≤ time.clock },
    ghost few: { vec_len boundaries ≤ most_boundaries },
    ghost room: { most_boundaries ≤ vec_capacity boundaries },
}
