//! The record of the deferred book.
ghost use Rattle.std.specs.Prelude.{◌≡◌, ◌+◌, true};
ghost use Rattle.capacity.specs.Slack.{rises};
ghost use Rattle.slot_book.specs.Slot.{slot_meaning};

use crate::notes::Notes;
use slot_book::SlotBook;

/// A book that notes the slots that pass, and settles only when someone asks: a slot-by-slot book as it stood when it was last
/// settled, and the notes since.
#[derive(Drop)]
pub struct DeferredBook {
    pub(crate) settled: SlotBook,
    pub(crate) notes: Notes,
    // The noted slots end before the first interval does: its last slot is never noted.
    ghost within: { rises
        ((slot_meaning settled).clock + notes.slots)
        (slot_meaning settled).boundaries
        (slot_meaning settled).horizon
        ≡ true },
}
