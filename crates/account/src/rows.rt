//! The lines of the account: one for each interval of a book.
ghost use Rattle.std.specs.Prelude.{◌≡◌, ◌+◌};
ghost use Rattle.terms.specs.Answers.{said, value};
ghost use Rattle.capacity.specs.Spare.{spare as spare_of};
ghost use Rattle.account.specs.Rows.{due_from, row_says, DueAsHeld};

use capacity::Book;
use std::fmt;
use terms::Refusal;

/// The heads of the columns.
pub const HEADING: &str = "interval    from      to   width     due   spare";

/// An interval with its two ends, its width, the demand due at its end and its spare capacity.
#[derive(Clone, Copy)]
pub struct Row {
    pub interval: usize,
    pub from: u32,
    pub to: u32,
    pub width: u32,
    pub due: i64,
    pub spare: i32,
}

impl fmt::Display for Row {
    fn fmt<W: fmt::Write>(&self, f: &mut fmt::Formatter<W>) -> fmt::Result {
        let Row {
            interval,
            from,
            to,
            width,
            due,
            spare,
        } = *self;
        write!(
            f,
            "{interval:>8}{from:>8}{to:>8}{width:>8}{due:>8}{spare:>8}"
        )
    }
}

// What is due at an interval's end: its width less its spare capacity, less what the next interval takes of it.
fn due_from(width: u32, own: i32, next: i32) -> i64
    ensures { result ≡ due_from width own next }
{
    i64::from(width) - i64::from(own) + i64::from(next.min(0))
}

// The spare capacity of the interval behind this one; nought where there is none.
#[tactic(auto, using(capacity::proofs::Intervals::spare_past))]
fn spare_behind<B: Book>(book: &mut B, interval: usize) -> Result<i32, Refusal>
    ensures answer { said result ≡ value (spare_of (B.Book.meaning book.old) (interval + 1)) }
    ensures same { B.Book.meaning book.new ≡ B.Book.meaning book.old }
{
    if interval >= book.count() {
        return Ok(0);
    }
    book.spare(interval + 1)
}

impl Row {
    // The line for an interval that runs from one slot to another.
    pub(crate) fn of<B: Book>(
        book: &mut B,
        interval: usize,
        from: u32,
        to: u32,
    ) -> Result<Row, Refusal>
        ensures answer { said result ≡ row_says (B.Book.meaning book.old) interval from to }
        ensures same { B.Book.meaning book.new ≡ B.Book.meaning book.old }
        ensures due { DueAsHeld (B.Book.meaning book.old) interval from to result }
    {
        let spare = book.spare(interval)?;
        let next = spare_behind(book, interval)?;
        let width = to.saturating_sub(from);
        let due = due_from(width, spare, next);
        Ok(Row {
            interval,
            from,
            to,
            width,
            due,
            spare,
        })
    }
}
