//! The capacity book: one trait, whatever a book keeps to answer it.
ghost use Rattle.std.specs.Prelude.{◌≡◌, length, IfOk};
ghost use Rattle.terms.specs.Answers.{said};
ghost use Rattle.capacity.specs.Meaning.{Meaning};
ghost use Rattle.capacity.specs.Calls.{cleared, clear_says, clear_leaves, cut_says, cut_leaves, owe_says, owe_leaves, forgive_says, forgive_leaves, run_says, run_leaves, spare_says, headroom_says};

use std::alloc::{AllocError, Global};
use terms::Refusal;

/// A book of slots. Its meaning is a clock, a horizon and boundaries with the demand due at each; every call is told by what it
/// says and by what the book means afterwards, and a refusal leaves the meaning as it was.
pub trait Book {
    ghost meaning: { Self → Meaning };

    /// Begins anew: clock 0, one boundary at the horizon, nothing due. Refused 3 unless the horizon is 1 to 1,000,000.
    fn clear(&mut self, horizon: u32) -> Result<(), Refusal>
        ensures answer { said result ≡ clear_says horizon }
        ensures book { meaning self.new ≡ clear_leaves (meaning self.old) horizon };

    /// Makes a deadline a boundary; one that is there stays as it is. Refused 4 unless clock < deadline ≤ horizon, 9 if it is new and
    /// 128 are held.
    fn cut(&mut self, deadline: u32) -> Result<(), Refusal>
        ensures answer { said result ≡ cut_says (meaning self.old) deadline }
        ensures book { meaning self.new ≡ cut_leaves (meaning self.old) deadline };

    /// Adds a demand at a boundary. Refused 4 unless the deadline is a boundary and the demand at least 1, 11 if the demand is more
    /// than the headroom.
    fn owe(&mut self, deadline: u32, demand: u32) -> Result<(), Refusal>
        ensures answer { said result ≡ owe_says (meaning self.old) deadline demand }
        ensures book { meaning self.new ≡ owe_leaves (meaning self.old) deadline demand };

    /// Takes a demand away at a boundary. Refused 6 unless the deadline is a boundary with at least that much due.
    fn forgive(&mut self, deadline: u32, demand: u32) -> Result<(), Refusal>
        ensures answer { said result ≡ forgive_says (meaning self.old) deadline demand }
        ensures book { meaning self.new ≡ forgive_leaves (meaning self.old) deadline demand };

    /// Lets a slot pass, for the demand due at a deadline or for nobody. Refused 6 for a deadline that is no boundary with at least
    /// 1 due, 7 at the horizon.
    fn run(&mut self, owner: Option<u32>) -> Result<(), Refusal>
        ensures answer { said result ≡ run_says (meaning self.old) owner }
        ensures book { meaning self.new ≡ run_leaves (meaning self.old) owner };

    /// The slot that comes next.
    fn clock(&self) -> u32
        ensures { result ≡ (meaning self.now).clock };

    /// How many boundaries are to come.
    fn count(&self) -> usize
        ensures { result ≡ length (meaning self.now).boundaries };

    /// The spare capacity of an interval, counted from 1. Refused 4 unless there is such an interval.
    fn spare(&mut self, interval: usize) -> Result<i32, Refusal>
        ensures answer { said result ≡ spare_says (meaning self.old) interval }
        ensures same { meaning self.new ≡ meaning self.old };

    /// How many slots more can be due at a deadline. Refused 4 unless clock < deadline ≤ horizon.
    fn headroom(&mut self, deadline: u32) -> Result<u32, Refusal>
        ensures answer { said result ≡ headroom_says (meaning self.old) deadline }
        ensures same { meaning self.new ≡ meaning self.old };
}

/// A book that can be made. `new` takes room for every boundary that the book may come to hold; no other call takes memory.
pub trait NewBook: Book {
    /// A book cleared to the shortest horizon.
    fn new(heap: Global) -> Result<Self, AllocError>
        ensures { IfOk result (λ b. Self.meaning b ≡ cleared 1) };
}
