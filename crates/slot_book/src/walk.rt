//! The walk back from an interval whose spare changes to those before it.
ghost use Rattle.std.specs.Prelude.{◌≡◌, ◌<◌, length, pos};
ghost use Rattle.slot_book.specs.Carry.{carried, Rose, AllSmall};

use crate::span::Span;

// Changes the spare at a place and carries the change back, from interval to interval, until one hands nothing on. A raise by one
// stops at the first spare, on the way back, that was not negative before; that one rises too. Answers the place where carrying
// ended.
pub(crate) fn carry(spans: &mut [Span], from: usize, mut change: i32) -> usize
    requires within { from < length spans.old }
    requires spares { AllSmall (carried spans.old from change) }
    ensures after { spans.new ≡ carried spans.old from change }
    ensures rose { change ≡ pos 1 → Rose spans.old spans.new from result }
{
    for place in (0..=from).rev() {
        change = spans[place].change(change);
        if change == 0 {
            return place;
        }
    }
    0
}
