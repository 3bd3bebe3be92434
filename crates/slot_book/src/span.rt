//! One record of a book that keeps spares, and its arithmetic. It is signed: a spare may be negative, and then the interval
//! takes as much from the one before it.
ghost use Rattle.std.specs.Prelude.{◌≡◌, ◌+◌, ◌≤◌, pos, ◌+ℤ◌, ◌-ℤ◌, ◌≤ℤ◌};
ghost use Rattle.std.specs.Int.{int_min};
ghost use Rattle.capacity.specs.Spare.{positive_part};
ghost use Rattle.slot_book.specs.Small.{Small};

use std::marker::Model;

// An interval: the slot where it ends, and its spare capacity. It begins where the one before it ends.
#[derive(Clone, Copy)]
pub(crate) struct Span {
    pub(crate) end: u32,
    pub(crate) spare: i32,
}

// A model, so that definitions can write a record of the two numbers without a proof; their bounds stand here.
impl Model for Span {
    ghost use Rattle.slot_book.specs.Interval.{Interval, IsWithinHorizon};

    ghost Value = { Interval };

    ghost view = { λ s. record { end = s.end; spare = s.spare } };

    ghost invariant = { λ s. IsWithinHorizon s.end s.spare };

    ghost inverse = { λ x. record { end = x.end; spare = x.spare } };
}

impl Span {
    ghost use Rattle.slot_book.specs.Carry.{with_more, handed_on};
    ghost use Rattle.slot_book.specs.Split.{left_of, right_of};

    // Gives the interval so much more to spare, or less. Answers what the interval before it gains by that.
    pub(crate) fn change(&mut self, by: i32) -> i32
        requires { Small (self.old.spare +ℤ by) }
        ensures changed { self.new ≡ with_more self.old by }
        ensures handed { result ≡ handed_on self.old.spare by }
    {
        let before = self.spare.min(0);
        self.spare += by;
        self.spare.min(0) - before
    }

    // What the interval takes from before its start: as much as its spare is below nought.
    pub(crate) fn lacking(self) -> u32
        ensures { pos result +ℤ int_min (pos 0) self.spare ≡ pos 0 }
    {
        self.spare.min(0).unsigned_abs()
    }

    // The interval with the spare that is left where it begins at a slot and so much of it is used.
    pub(crate) fn using(self, start: u32, used: u32) -> Span
        requires wide { start ≤ self.end }
        requires fits { used ≤ self.end }
        ensures end { result.end ≡ self.end }
        ensures spare { result.spare +ℤ pos (start + used) ≡ pos self.end }
    {
        Span {
            end: self.end,
            spare: (self.end - start) as i32 - used as i32,
        }
    }

    // What is used of the interval: what is due at its end, and what the intervals behind it take.
    pub(crate) fn used(self, start: u32) -> u32
        requires wide { start ≤ self.end }
        requires some { (self.spare +ℤ pos start) ≤ℤ pos self.end }
        ensures { self.spare +ℤ pos (start + result) ≡ pos self.end }
    {
        ((self.end - start) as i32 - self.spare) as u32
    }

    // Splits the interval at a slot inside. The part before it can spare what the whole could, and no more than its width; the part
    // after it has to do without that width.
    pub(crate) fn split_at(self, start: u32, at: u32) -> (Span, Span)
        requires inside { (start ≤ at) × (at ≤ self.end) }
        requires small { Small (self.spare -ℤ (pos at -ℤ pos start)) }
        ensures left { result.0 ≡ left_of self start at }
        ensures right { result.1 ≡ right_of self start at }
    {
        let width = (at - start) as i32;
        let left = Span {
            end: at,
            spare: width.min(self.spare),
        };
        let right = Span {
            end: self.end,
            spare: self.spare - width,
        };
        (left, right)
    }

    // What the interval has free.
    pub(crate) fn free(self) -> u32
        ensures { result ≡ positive_part self.spare }
    {
        self.spare.max(0) as u32
    }

    // What the interval has free before a slot inside.
    pub(crate) fn free_before(self, start: u32, at: u32) -> u32
        requires { (start ≤ at) × (at ≤ self.end) }
        ensures { result ≡ positive_part (int_min (pos at -ℤ pos start) self.spare) }
    {
        let width = (at - start) as i32;
        width.min(self.spare).max(0) as u32
    }
}
