//! The plain book shows every line of a book. Each call looks before it writes, so that a refusal changes nothing.
ghost use Rattle.std.specs.Prelude.{◌≡◌, IfOk, None};
ghost use Rattle.capacity.specs.Calls.{cleared, run_says, run_leaves};
ghost use Rattle.terms.specs.Answers.{said};
ghost use Rattle.plain_book.specs.Plain.{plain_meaning};

use crate::PlainBook;
use capacity::{Book, Boundary, NewBook, Timeline};
use std::alloc::{AllocError, Global};
use terms::Refusal;
use terms::limits::MAX_BOUNDARIES;

impl PlainBook {
    /// A book cleared to the shortest horizon, with room for every boundary that it may come to hold. No other call takes memory.
    pub fn new(heap: Global) -> Result<PlainBook, AllocError>
        ensures { IfOk result (λ b. plain_meaning b ≡ cleared 1) }
    {
        let mut boundaries = Vec::with_capacity(heap, MAX_BOUNDARIES)?;
        boundaries.push_reserved(Boundary { end: 1, due: 0 });
        Ok(PlainBook {
            time: Timeline::default(),
            boundaries,
        })
    }

    // Lets a slot pass for nobody: the clock rises, and a boundary that it reaches goes.
    fn pass(&mut self) -> Result<(), Refusal>
        ensures answer { said result ≡ run_says (plain_meaning self.old) None }
        ensures book { plain_meaning self.new ≡ run_leaves (plain_meaning self.old) None }
    {
        self.time.pass()?;
        if self.boundaries[0].end == self.time.clock {
            self.boundaries.remove(0);
        }
        Ok(())
    }
}

impl NewBook for PlainBook {
    fn new(heap: Global) -> Result<Self, AllocError> {
        PlainBook::new(heap)
    }
}

impl Book for PlainBook {
    ghost meaning = { plain_meaning };

    fn clear(&mut self, horizon: u32) -> Result<(), Refusal> {
        self.time = Timeline::new(horizon)?;
        self.boundaries.clear();
        self.boundaries.push_reserved(Boundary {
            end: horizon,
            due: 0,
        });
        Ok(())
    }

    fn cut(&mut self, deadline: u32) -> Result<(), Refusal> {
        self.time.admit(deadline)?;
        let Err(place) = self.place(deadline) else {
            return Ok(());
        };
        if self.boundaries.len() >= MAX_BOUNDARIES {
            return Err(Refusal::TooManyBoundaries);
        }
        let new = Boundary {
            end: deadline,
            due: 0,
        };
        self.boundaries.insert(place, new).unwrap();
        Ok(())
    }

    fn owe(&mut self, deadline: u32, demand: u32) -> Result<(), Refusal> {
        let place = self
            .place(deadline)
            .ok()
            .filter(|_| demand >= 1)
            .ok_or(Refusal::Unfit)?;
        if demand > self.room(deadline) {
            return Err(Refusal::NoCapacity);
        }
        self.boundaries[place].due += demand;
        Ok(())
    }

    fn forgive(&mut self, deadline: u32, demand: u32) -> Result<(), Refusal> {
        let place = self
            .place(deadline)
            .ok()
            .filter(|&place| demand <= self.boundaries[place].due)
            .ok_or(Refusal::NotHeld)?;
        self.boundaries[place].due -= demand;
        Ok(())
    }

    fn run(&mut self, owner: Option<u32>) -> Result<(), Refusal> {
        if let Some(deadline) = owner {
            self.forgive(deadline, 1)?;
        }
        self.pass()
    }

    fn clock(&self) -> u32 {
        self.time.clock
    }

    fn count(&self) -> usize {
        self.boundaries.len()
    }

    fn spare(&mut self, interval: usize) -> Result<i32, Refusal> {
        if !(1..=self.boundaries.len()).contains(&interval) {
            return Err(Refusal::Unfit);
        }
        let place = interval - 1;
        Ok(self.latest(place) as i32 - self.start(place) as i32)
    }

    fn headroom(&mut self, deadline: u32) -> Result<u32, Refusal> {
        self.time.admit(deadline)?;
        Ok(self.room(deadline))
    }
}
