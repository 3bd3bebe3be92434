//! The record of the slots that have passed since a book was last settled.
ghost use Rattle.std.specs.Prelude.{◌≡◌, ℕ, ◌≤◌, length, slice_index};
ghost use Rattle.terms.specs.Limits.{most_boundaries};

use terms::limits::MAX_BOUNDARIES;

// How many slots have passed, and one note for each interval. The first note is how many of the slots were not for the first
// boundary: by so much the first interval's spare has fallen. Each later note is how many were for that boundary. The notes stand
// beside the records of the intervals, since those are the slot-by-slot book's, which notes nothing.
#[derive(Drop)]
pub(crate) struct Notes {
    pub(crate) slots: u32,
    pub(crate) noted: [u32; MAX_BOUNDARIES],
    // Every place has its note.
    ghost each: { length noted ≡ most_boundaries },
    // No note counts more slots than have passed.
    ghost counted: { (k : ℕ) → slice_index noted k ≤ slots },
}
