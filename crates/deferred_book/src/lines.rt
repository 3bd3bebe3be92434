//! The deferred book shows every line of a book. A run notes its slot, unless that ends the first interval; then, and in any other
//! call that looks at what is due, the book settles first and leaves the rest to the slot-by-slot book.
ghost use Rattle.std.specs.Prelude.{◌≡◌, IfOk};
ghost use Rattle.capacity.specs.Calls.{cleared};
ghost use Rattle.deferred_book.specs.Deferred.{deferred_meaning};

use crate::DeferredBook;
use crate::notes::Notes;
use capacity::{Book, NewBook};
use slot_book::SlotBook;
use std::alloc::{AllocError, Global};
use terms::Refusal;

impl DeferredBook {
    /// A book cleared to the shortest horizon, with room for every boundary that it may come to hold. No other call takes memory.
    pub fn new(heap: Global) -> Result<DeferredBook, AllocError>
        ensures { IfOk result (λ b. deferred_meaning b ≡ cleared 1) }
    {
        Ok(DeferredBook {
            settled: SlotBook::new(heap)?,
            notes: Notes::none(),
        })
    }
}

impl NewBook for DeferredBook {
    fn new(heap: Global) -> Result<Self, AllocError> {
        DeferredBook::new(heap)
    }
}

impl Book for DeferredBook {
    ghost meaning = { deferred_meaning };

    fn clear(&mut self, horizon: u32) -> Result<(), Refusal> {
        self.settled.clear(horizon)?;
        self.notes = Notes::none();
        Ok(())
    }

    fn cut(&mut self, deadline: u32) -> Result<(), Refusal> {
        self.settle();
        self.settled.cut(deadline)
    }

    fn owe(&mut self, deadline: u32, demand: u32) -> Result<(), Refusal> {
        self.settle();
        self.settled.owe(deadline, demand)
    }

    fn forgive(&mut self, deadline: u32, demand: u32) -> Result<(), Refusal> {
        self.settle();
        self.settled.forgive(deadline, demand)
    }

    fn run(&mut self, owner: Option<u32>) -> Result<(), Refusal> {
        let place = owner.map(|deadline| self.owner(deadline)).transpose()?;
        if self.clock() == self.settled.horizon() {
            return Err(Refusal::AtHorizon);
        }
        // The slot that ends the first interval is the settled book's own.
        if self.clock() + 1 >= self.settled.first_end() {
            self.settle();
            return self.settled.run(owner);
        }
        self.notes.note(place);
        Ok(())
    }

    fn clock(&self) -> u32 {
        self.settled.clock() + self.notes.slots
    }

    fn count(&self) -> usize {
        self.settled.count()
    }

    fn spare(&mut self, interval: usize) -> Result<i32, Refusal> {
        self.settle();
        self.settled.spare(interval)
    }

    fn headroom(&mut self, deadline: u32) -> Result<u32, Refusal> {
        self.settle();
        self.settled.headroom(deadline)
    }
}
