//! The slot-by-slot book shows every line of a book. Each call looks before it writes, so that a refusal changes nothing.
ghost use Rattle.std.specs.Prelude.{◌≡◌, IfOk};
ghost use Rattle.capacity.specs.Calls.{cleared};
ghost use Rattle.slot_book.specs.Slot.{slot_meaning};

use crate::SlotBook;
use crate::span::Span;
use capacity::{Book, NewBook, Timeline};
use std::alloc::{AllocError, Global};
use terms::Refusal;
use terms::limits::MAX_BOUNDARIES;

impl SlotBook {
    /// A book cleared to the shortest horizon, with room for every interval that it may come to hold. No other call takes memory.
    pub fn new(heap: Global) -> Result<SlotBook, AllocError>
        ensures { IfOk result (λ b. slot_meaning b ≡ cleared 1) }
    {
        let mut spans = Vec::with_capacity(heap, MAX_BOUNDARIES)?;
        spans.push_reserved(Span { end: 1, spare: 1 });
        Ok(SlotBook {
            time: Timeline::default(),
            spans,
        })
    }
}

impl NewBook for SlotBook {
    fn new(heap: Global) -> Result<Self, AllocError> {
        SlotBook::new(heap)
    }
}

impl Book for SlotBook {
    ghost meaning = { slot_meaning };

    fn clear(&mut self, horizon: u32) -> Result<(), Refusal> {
        self.time = Timeline::new(horizon)?;
        self.spans.clear();
        self.spans.push_reserved(Span {
            end: horizon,
            spare: horizon as i32,
        });
        Ok(())
    }

    fn cut(&mut self, deadline: u32) -> Result<(), Refusal> {
        self.time.admit(deadline)?;
        let Err(place) = self.place(deadline) else {
            return Ok(());
        };
        if self.len() >= MAX_BOUNDARIES {
            return Err(Refusal::TooManyBoundaries);
        }
        self.split(place, deadline);
        Ok(())
    }

    fn owe(&mut self, deadline: u32, demand: u32) -> Result<(), Refusal> {
        let place = self
            .place(deadline)
            .ok()
            .filter(|_| demand >= 1)
            .ok_or(Refusal::Unfit)?;
        if demand > self.room(deadline) {
            return Err(Refusal::NoCapacity);
        }
        self.owe_at(place, demand);
        Ok(())
    }

    fn forgive(&mut self, deadline: u32, demand: u32) -> Result<(), Refusal> {
        let place = self.owing_place(deadline, demand)?;
        self.forgive_at(place, demand);
        Ok(())
    }

    fn run(&mut self, owner: Option<u32>) -> Result<(), Refusal> {
        match owner {
            None => self.pass(),
            Some(deadline) => self.run_for(deadline),
        }
    }

    fn clock(&self) -> u32 {
        self.time.clock
    }

    fn count(&self) -> usize {
        self.len()
    }

    fn spare(&mut self, interval: usize) -> Result<i32, Refusal> {
        if !(1..=self.len()).contains(&interval) {
            return Err(Refusal::Unfit);
        }
        let span = self.spans[interval - 1];
        Ok(span.spare)
    }

    fn headroom(&mut self, deadline: u32) -> Result<u32, Refusal> {
        self.time.admit(deadline)?;
        Ok(self.room(deadline))
    }
}
