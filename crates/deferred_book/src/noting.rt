//! Noting a slot, in a constant number of steps.
ghost use Rattle.std.specs.Prelude.{◌≡◌, ◌+◌, ◌<◌, slice_index};
ghost use Rattle.std.specs.Option.{ForSome};
ghost use Rattle.terms.specs.Limits.{longest_horizon, most_boundaries};
ghost use Rattle.deferred_book.specs.Deferred.{served_by};
ghost use Rattle.deferred_book.specs.Noting.{noting, Unnoted};

use crate::notes::Notes;
use terms::limits::MAX_BOUNDARIES;

// The place of the first interval.
pub(crate) const FIRST: usize = 0;

impl Notes {
    // Nothing noted.
    pub(crate) fn none() -> Notes
        ensures { Unnoted result }
    {
        Notes {
            slots: 0,
            noted: [0; MAX_BOUNDARIES],
        }
    }

    // How many of the noted slots were for the boundary at a place.
    pub(crate) fn served(&self, place: usize) -> u32
        ensures { result ≡ slice_index (served_by self.now) place }
    {
        if place == FIRST {
            self.slots - self.noted[FIRST]
        } else {
            self.noted.get(place).copied().unwrap_or(0)
        }
    }

    // Notes one slot more, for the boundary at a place or for nobody.
    pub(crate) fn note(&mut self, owner: Option<usize>)
        requires few { self.old.slots < longest_horizon }
        requires place { ForSome owner (λ k. k < most_boundaries) }
        ensures slots { self.new.slots ≡ self.old.slots + 1 }
        ensures noted { self.new.noted ≡ noting self.old.noted owner }
    {
        match owner {
            None => self.noted[FIRST] += 1,
            Some(FIRST) => {}
            Some(place) => {
                self.noted[FIRST] += 1;
                self.noted[place] += 1;
            }
        }
        self.slots += 1;
    }
}
