//! Finding places in the plain book, and the latest start of the work from a place on.
ghost use Rattle.std.specs.Prelude.{◌≡◌, ◌-◌, ◌≤◌, min, drop, vec_len};
ghost use Rattle.capacity.specs.Spare.{headroom};
ghost use Rattle.capacity.specs.Intervals.{start_at};
ghost use Rattle.capacity.specs.Places.{Found};
ghost use Rattle.plain_book.specs.Latest.{latest_start, latest};
ghost use Rattle.plain_book.specs.Plain.{plain_meaning};

use crate::PlainBook;
use capacity::Boundary;

// By when the work due at a boundary and later must start, if the work due later must start at a slot.
fn latest_start(behind: u32, boundary: &Boundary) -> u32
    ensures { result ≡ latest_start behind boundary.now }
{
    boundary.end.min(behind).saturating_sub(boundary.due)
}

// What an interval has free before a slot, from where it begins and by when the work due at its end and later must start.
fn free_before(slot: u32, start: u32, latest: u32) -> u32
    ensures { result ≡ min latest slot - start }
{
    latest.min(slot).saturating_sub(start)
}

impl PlainBook {
    // The place of a deadline among the boundaries, or the place that it would have.
    pub(crate) fn place(&self, deadline: u32) -> Result<usize, usize>
        ensures { Found self.now.boundaries.items deadline result }
    {
        self.boundaries
            .binary_search_by_key(&deadline, |boundary| boundary.end)
    }

    // Where the interval at a place begins.
    pub(crate) fn start(&self, place: usize) -> u32
        requires { place ≤ vec_len self.now.boundaries }
        ensures { result ≡ start_at self.now.time.clock self.now.boundaries.items place }
    {
        self.boundaries[..place]
            .last()
            .map_or(self.time.clock, |before| before.end)
    }

    // By when the work due from a place on must start.
    #[tactic(auto, using(std::proofs::lemmas::List::take_rest, crate::proofs::Latest::latest_of_reverse))]
    pub(crate) fn latest(&self, from: usize) -> u32
        requires { from ≤ vec_len self.now.boundaries }
        ensures { result ≡ latest self.now.time.horizon (drop from self.now.boundaries.items) }
    {
        self.boundaries[from..]
            .iter()
            .rev()
            .fold(self.time.horizon, latest_start)
    }

    // The headroom at a deadline: of each interval what it has free, and no more than lies before the deadline.
    pub(crate) fn room(&self, deadline: u32) -> u32
        ensures { result ≡ headroom (plain_meaning self.now) deadline }
    {
        let mut latest = self.time.horizon;
        let mut room = 0;
        for place in (0..self.boundaries.len()).rev() {
            latest = latest_start(latest, &self.boundaries[place]);
            room += free_before(deadline, self.start(place), latest);
        }
        room
    }
}
