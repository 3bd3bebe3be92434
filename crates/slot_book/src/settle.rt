//! Several slots of the first interval at once, in one pass over the intervals.
ghost use Rattle.std.specs.Prelude.{◌≡◌, ◌+◌, ◌<◌, ◌≤◌, length, slice_index};
ghost use Rattle.terms.specs.Answers.{said};
ghost use Rattle.capacity.specs.Noted.{unserved, first_end, catch_up_says, catch_up_leaves};
ghost use Rattle.slot_book.specs.Mend.{start_of, Mendable};
ghost use Rattle.slot_book.specs.Slot.{slot_meaning};
ghost use Rattle.slot_book.specs.Spans.{spans_of, dues_of};

use crate::SlotBook;
use crate::changes::drop_ended;
use crate::span::Span;
use terms::Refusal;

impl SlotBook {
    /// Lets several slots pass at once, of which each boundary, in order, has been given so many. Refused 4 if they pass the end of
    /// the first interval.
    pub fn catch_up(&mut self, slots: u32, served: &[u32]) -> Result<(), Refusal>
        ensures answer { said result ≡ catch_up_says (slot_meaning self.old) slots }
        ensures book { slot_meaning self.new
            ≡ catch_up_leaves (slot_meaning self.old) slots served.now }
    {
        if slots > self.first_end() - self.time.clock {
            return Err(Refusal::Unfit);
        }
        let clock = self.time.clock + slots;
        mend(&mut self.spans, self.time.clock, clock, served);
        self.time.clock = clock;
        drop_ended(&mut self.spans, clock);
        Ok(())
    }
}

// Where the interval at a place begins, if the first begins at a slot.
pub(crate) fn start_of(spans: &[Span], first: u32, place: usize) -> u32
    requires { place ≤ length spans.now }
    ensures { result ≡ start_of first spans.now place }
{
    spans[..place].last().map_or(first, |before| before.end)
}

// How many slots the boundary at a place has been given.
fn given(served: &[u32], place: usize) -> u32
    ensures { result ≡ slice_index served.now place }
{
    served.get(place).copied().unwrap_or(0)
}

// Mends the spares, from the last interval to the first, for slots that have passed between two clocks. What an interval behind
// took before tells what was due, and what it takes now is passed on.
fn mend(spans: &mut [Span], from: u32, to: u32, served: &[u32])
    requires records { Mendable from spans.old }
    requires order { (from ≤ to) × (to ≤ first_end from (dues_of from spans.old)) }
    ensures { spans.new ≡ spans_of to (unserved (dues_of from spans.old) served.now) }
{
    let mut before = 0;
    let mut after = 0;
    for place in (0..spans.len()).rev() {
        let span = spans[place];
        let due = span.used(start_of(spans, from, place)) - before;
        let left = due.saturating_sub(given(served, place));
        let mended = span.using(start_of(spans, to, place), left + after);
        before = span.lacking();
        after = mended.lacking();
        spans[place] = mended;
    }
}
