//! Who a slot can be for.
ghost use Rattle.std.specs.Prelude.{◌≡◌};
ghost use Rattle.capacity.specs.Intervals.{boundary_at};
ghost use Rattle.capacity.specs.Places.{Owing};
ghost use Rattle.deferred_book.specs.Deferred.{deferred_meaning};

use crate::DeferredBook;
use terms::Refusal;

impl DeferredBook {
    // What is due now at a place: what was due when the book was settled, less the noted slots.
    fn due(&self, place: usize) -> u32
        ensures { result ≡ (boundary_at (deferred_meaning self.now).boundaries place).due }
    {
        self.settled
            .due(place)
            .saturating_sub(self.notes.served(place))
    }

    // The place of a deadline at which something is due now. Refused 6 if nothing is.
    pub(crate) fn owner(&self, deadline: u32) -> Result<usize, Refusal>
        ensures { Owing (deferred_meaning self.now) deadline 1 result }
    {
        self.settled
            .place(deadline)
            .ok()
            .filter(|&place| self.due(place) >= 1)
            .ok_or(Refusal::NotHeld)
    }
}
