//! What a book's spare capacity decides. Both calls stand for every book, and say what they mean in terms of slack.
ghost use Rattle.std.specs.Prelude.{◌≡◌};
ghost use Rattle.terms.specs.Answers.{said};
ghost use Rattle.capacity.specs.Calls.{fits_says, spares_slot_says};
ghost use Rattle.capacity.specs.Reached.{Reached};
ghost use Rattle.capacity.specs.Slack.{Ordered, HeadroomIsLeastSlack, SpareMeansSlack};

use crate::Book;
use terms::Refusal;

/// Whether so much more can be due at a deadline. Refused 4 unless clock < deadline ≤ horizon.
/// Where the boundaries are in order and no slack is negative, that is so exactly when it fits between the clock and every slot from
/// the deadline on, beside what is due by then. The boundaries of a book are in order once it was cleared, whatever was called since.
pub fn fits<B: Book>(book: &mut B, deadline: u32, demand: u32) -> Result<bool, Refusal>
    ensures answer { said result ≡ fits_says (B.Book.meaning book.old) deadline demand }
    ensures same { B.Book.meaning book.new ≡ B.Book.meaning book.old }
    ensures exact { HeadroomIsLeastSlack (B.Book.meaning book.old) deadline demand }
    ensures ordered { Reached (B.Book.meaning book.old) → Ordered (B.Book.meaning book.old) }
{
    Ok(demand <= book.headroom(deadline)?)
}

/// Whether the slot at the clock can be spared for work that nothing guarantees. Refused 4 at the horizon.
/// Where the boundaries are in order and no slack is negative, that is so exactly when every slack is at least 1.
pub fn spares_slot<B: Book>(book: &mut B) -> Result<bool, Refusal>
    ensures answer { said result ≡ spares_slot_says (B.Book.meaning book.old) }
    ensures same { B.Book.meaning book.new ≡ B.Book.meaning book.old }
    ensures exact { SpareMeansSlack (B.Book.meaning book.old) }
{
    Ok(book.spare(1)? >= 1)
}
