//! Finding places in the slot-by-slot book, and working demands out from neighbouring spares.
ghost use Rattle.std.specs.Prelude.{◌≡◌, ◌<◌, ◌≤◌, length, drop, vec_len};
ghost use Rattle.capacity.specs.Intervals.{start_at};
ghost use Rattle.capacity.specs.Noted.{first_end};
ghost use Rattle.capacity.specs.Places.{Found, Owing};
ghost use Rattle.capacity.specs.Shortage.{short};
ghost use Rattle.capacity.specs.Spare.{headroom};
ghost use Rattle.slot_book.specs.Due.{due_there};
ghost use Rattle.slot_book.specs.Slot.{slot_meaning, slot_boundaries};

use crate::SlotBook;
use crate::settle::start_of;
use terms::Refusal;

impl SlotBook {
    /// The horizon, which is the last boundary while any is left.
    pub fn horizon(&self) -> u32
        ensures { result ≡ (slot_meaning self.now).horizon }
    {
        self.time.horizon
    }

    // How many boundaries are to come.
    pub(crate) fn len(&self) -> usize
        ensures told { result ≡ length (slot_boundaries self.now) }
        ensures kept { result ≡ vec_len self.now.spans }
    {
        self.spans.len()
    }

    /// The place of a deadline among the boundaries, or the place that it would have.
    pub fn place(&self, deadline: u32) -> Result<usize, usize>
        ensures { Found (slot_meaning self.now).boundaries deadline result }
    {
        self.spans.binary_search_by_key(&deadline, |span| span.end)
    }

    // Where the interval at a place begins.
    pub(crate) fn start(&self, place: usize) -> u32
        requires { place ≤ vec_len self.now.spans }
        ensures { result ≡ start_at self.now.time.clock (slot_boundaries self.now) place }
    {
        start_of(&self.spans, self.time.clock, place)
    }

    // What the intervals from a place on take from before it; nothing behind the last.
    pub(crate) fn lacking(&self, place: usize) -> u32
        ensures { result
            ≡ short (start_at self.now.time.clock (slot_boundaries self.now) place)
            (drop place (slot_boundaries self.now)) }
    {
        self.spans.get(place).map_or(0, |span| span.lacking())
    }

    /// Where the first interval ends; the clock where none is left.
    pub fn first_end(&self) -> u32
        ensures { result
            ≡ first_end (slot_meaning self.now).clock (slot_meaning self.now).boundaries }
    {
        self.spans.first().map_or(self.time.clock, |span| span.end)
    }

    /// What is due at the boundary at a place, worked out from neighbouring spares; nothing where there is none.
    pub fn due(&self, place: usize) -> u32
        ensures { result ≡ due_there (slot_meaning self.now) place }
    {
        let Some(span) = self.spans.get(place) else {
            return 0;
        };
        span.used(self.start(place)) - self.lacking(place + 1)
    }

    // The place of a boundary with at least so much due. Refused 6 where there is none.
    pub(crate) fn owing_place(&self, deadline: u32, demand: u32) -> Result<usize, Refusal>
        ensures { Owing (slot_meaning self.now) deadline demand result }
    {
        self.place(deadline)
            .ok()
            .filter(|&place| demand <= self.due(place))
            .ok_or(Refusal::NotHeld)
    }

    // The headroom at a deadline after the clock: what the intervals before it have free, and of its own what lies before it.
    pub(crate) fn room(&self, deadline: u32) -> u32
        requires { self.now.time.clock < deadline }
        ensures { result ≡ headroom (slot_meaning self.now) deadline }
    {
        let mut start = self.time.clock;
        let mut room = 0;
        for span in &self.spans {
            if deadline <= span.end {
                return room + span.free_before(start, deadline);
            }
            room += span.free();
            start = span.end;
        }
        room
    }
}
