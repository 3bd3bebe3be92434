//! Settling: the slot-by-slot book catches up with the noted slots, and none is noted any more.
ghost use Rattle.std.specs.Prelude.{◌≡◌};
ghost use Rattle.slot_book.specs.Slot.{slot_meaning};
ghost use Rattle.deferred_book.specs.Deferred.{deferred_meaning};
ghost use Rattle.deferred_book.specs.Noting.{Unnoted};

use crate::DeferredBook;
use crate::notes::Notes;
use crate::noting::FIRST;

impl DeferredBook {
    // Settles the book, which means the same as before.
    #[tactic(auto, using(crate::proofs::Keeping::settling_keeps_the_meaning))]
    pub(crate) fn settle(&mut self)
        ensures same { deferred_meaning self.new ≡ deferred_meaning self.old }
        ensures settled { slot_meaning self.new.settled ≡ deferred_meaning self.old }
        ensures notes { Unnoted self.new.notes }
    {
        // From here on each note is what its boundary got, the first one too.
        self.notes.noted[FIRST] = self.notes.slots - self.notes.noted[FIRST];
        self.settled
            .catch_up(self.notes.slots, &self.notes.noted)
            .unwrap();
        self.notes = Notes::none();
    }
}
