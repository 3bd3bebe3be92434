//! What the calls of the slot-by-slot book do to its records. Each is told by the demands that the new spares tell.
ghost use Rattle.std.specs.Prelude.{◌≡◌, ◌+◌, ◌-◌, ◌<◌, ◌≤◌, true, Some, None, length, vec_len, vec_capacity};
ghost use Rattle.terms.specs.Answers.{said};
ghost use Rattle.terms.specs.Limits.{most_boundaries};
ghost use Rattle.capacity.specs.Calls.{to_come, with_boundary, with_boundaries, run_says, run_leaves, passed};
ghost use Rattle.capacity.specs.Intervals.{boundary_at};
ghost use Rattle.capacity.specs.Places.{Lacks};
ghost use Rattle.capacity.specs.Spare.{headroom};
ghost use Rattle.slot_book.specs.Due.{due_there, owing_there};
ghost use Rattle.slot_book.specs.Slot.{slot_meaning, slot_boundaries};
ghost use Rattle.slot_book.specs.Spans.{later_spans};

use crate::SlotBook;
use crate::span::Span;
use crate::walk::carry;
use terms::Refusal;

impl SlotBook {
    // Splits the interval at a place by a new boundary.
    pub(crate) fn split(&mut self, place: usize, deadline: u32)
        requires new { Lacks (slot_boundaries self.old) deadline place }
        requires coming { to_come (slot_meaning self.old) deadline ≡ true }
        requires few { vec_len self.old.spans < most_boundaries }
        ensures { slot_meaning self.new
            ≡ with_boundaries (slot_meaning self.old)
            (with_boundary (slot_boundaries self.old) deadline) }
    {
        let start = self.start(place);
        let (left, right) = self.spans[place].split_at(start, deadline);
        self.spans[place] = right;
        self.spans.insert(place, left).unwrap();
    }

    // So much more is due at the boundary at a place.
    pub(crate) fn owe_at(&mut self, place: usize, demand: u32)
        requires within { place < length (slot_boundaries self.old) }
        requires fits { demand
            ≤ headroom (slot_meaning self.old) (boundary_at (slot_boundaries self.old) place).end }
        ensures { slot_meaning self.new
            ≡ owing_there (slot_meaning self.old) place
            (due_there (slot_meaning self.old) place + demand) }
    {
        carry(&mut self.spans, place, -(demand as i32));
    }

    // So much less is due at the boundary at a place.
    pub(crate) fn forgive_at(&mut self, place: usize, demand: u32)
        requires within { place < length (slot_boundaries self.old) }
        requires owed { demand ≤ due_there (slot_meaning self.old) place }
        ensures { slot_meaning self.new
            ≡ owing_there (slot_meaning self.old) place
            (due_there (slot_meaning self.old) place - demand) }
    {
        carry(&mut self.spans, place, demand as i32);
    }

    // Lets a slot pass for nobody: the first interval loses a spare slot, and goes if it ends.
    pub(crate) fn pass(&mut self) -> Result<(), Refusal>
        ensures answer { said result ≡ run_says (slot_meaning self.old) None }
        ensures book { slot_meaning self.new ≡ run_leaves (slot_meaning self.old) None }
    {
        self.time.pass()?;
        self.spans[0].change(-1);
        drop_ended(&mut self.spans, self.time.clock);
        Ok(())
    }

    // Lets a slot pass for the first boundary: what it costs and what it serves cancel out, so no record is touched.
    pub(crate) fn pass_for_first(&mut self)
        requires { 1 ≤ due_there (slot_meaning self.old) 0 }
        ensures { slot_meaning self.new
            ≡ passed (owing_there (slot_meaning self.old) 0
            (due_there (slot_meaning self.old) 0 - 1)) None }
    {
        self.time.clock += 1;
        drop_ended(&mut self.spans, self.time.clock);
    }

    // Lets a slot pass for the demand due at a deadline. Refused 6 where nothing is due.
    pub(crate) fn run_for(&mut self, deadline: u32) -> Result<(), Refusal>
        ensures answer { said result ≡ run_says (slot_meaning self.old) (Some deadline) }
        ensures book { slot_meaning self.new ≡ run_leaves (slot_meaning self.old) (Some deadline) }
    {
        let place = self.owing_place(deadline, 1)?;
        if place == 0 {
            self.pass_for_first();
            return Ok(());
        }
        self.forgive_at(place, 1);
        self.pass()
    }
}

// Drops the record of the first interval if that ends at a slot.
pub(crate) fn drop_ended(spans: &mut Vec<Span>, slot: u32)
    ensures items { spans.new.items ≡ later_spans slot spans.old.items }
    ensures len { vec_len spans.new ≤ vec_len spans.old }
    ensures capacity { vec_capacity spans.new ≡ vec_capacity spans.old }
{
    if spans.first().is_some_and(|span| span.end == slot) {
        spans.remove(0);
    }
}
