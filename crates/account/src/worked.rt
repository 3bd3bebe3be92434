//! The account of the worked example, over any book.
ghost use Rattle.std.specs.Prelude.{◌≡◌, IfOk, OnOk};
ghost use Rattle.capacity.specs.Calls.{cleared, owe_leaves};
ghost use Rattle.capacity.specs.Filled.{filled, ran};
ghost use Rattle.account.specs.Day.{orders_leave, day_end};

use crate::rows::{HEADING, Row};
use capacity::{Book, Boundary, fits, spares_slot};
use std::alloc::Global;
use terms::Refusal;

// The horizon, and what is due at each deadline.
const HORIZON: u32 = 12;

const DEMANDS: [Boundary; 4] = [
    Boundary { end: 6, due: 2 },
    Boundary { end: 8, due: 1 },
    Boundary { end: 10, due: 1 },
    Boundary { end: 12, due: 5 },
];

// The slots for which the headroom is asked.
const QUESTIONS: [u32; 3] = [2, 6, 12];

// The demands that come later, one after the other, and the deadline of both.
const DEADLINE: u32 = 12;

const FIRST_ORDER: u32 = 3;

const SECOND_ORDER: u32 = 4;

// Who gets the first slots.
const OWNERS: [Option<u32>; 4] = [Some(12), Some(12), Some(12), None];

// A book, and the account of it as far as it is written.
#[derive(Drop)]
pub(crate) struct Account<B> {
    pub(crate) text: String,
    pub(crate) book: B,
}

impl<B: Book + Drop> Account<B> {
    // Fills a book with the worked example and writes its account, with an empty line before each part. A refusal, or want of memory,
    // ends it.
    pub(crate) fn of(heap: Global, mut book: B) -> anyhow::Result<Account<B>>
        ensures { IfOk result (λ a. B.Book.meaning a.book ≡ day_end) }
    {
        fill(&mut book, HORIZON, &DEMANDS)?;
        let text = String::new(heap);
        let mut account = Account { text, book };
        account.write_intervals(&DEMANDS)?;
        account.write_headroom(&QUESTIONS)?;
        account.write_orders()?;
        account.write_slots(&OWNERS)?;
        account.write_intervals(&DEMANDS)?;
        Ok(account)
    }

    // A line for each interval of the book, whose ends are those deadlines that are later than its clock. The deadlines rise.
    fn write_intervals(&mut self, demands: &[Boundary]) -> anyhow::Result<()>
        ensures { B.Book.meaning self.new.book ≡ B.Book.meaning self.old.book }
    {
        let clock = self.book.clock();
        writeln!(self.text, "\nAt slot {clock}\n{HEADING}")?;
        let mut from = clock;
        let passed = demands.partition_point(|demand| demand.end <= clock);
        for (interval, &Boundary { end, .. }) in (1..).zip(&demands[passed..]) {
            let row = Row::of(&mut self.book, interval, from, end)?;
            writeln!(self.text, "{row}")?;
            from = end;
        }
        Ok(())
    }

    // The headroom at some slots, and whether the slot at the clock can be spared.
    fn write_headroom(&mut self, slots: &[u32]) -> anyhow::Result<()>
        ensures { B.Book.meaning self.new.book ≡ B.Book.meaning self.old.book }
    {
        writeln!(self.text, "\nHeadroom")?;
        for &slot in slots {
            let headroom = self.book.headroom(slot)?;
            writeln!(self.text, "at {slot:>2}: {headroom:>2}")?;
        }
        let answer = if spares_slot(&mut self.book)? {
            "yes"
        } else {
            "no"
        };
        writeln!(self.text, "the next slot can be spared: {answer}")?;
        Ok(())
    }

    // The verdicts on two further demands. The first is taken back, so that the book is as it was.
    fn write_orders(&mut self) -> anyhow::Result<()>
        ensures { OnOk result
            (B.Book.meaning self.new.book ≡ orders_leave (B.Book.meaning self.old.book)) }
    {
        writeln!(self.text, "\nOrders")?;
        self.write_verdict(DEADLINE, FIRST_ORDER)?;
        self.write_verdict(DEADLINE, SECOND_ORDER)?;
        self.book.forgive(DEADLINE, FIRST_ORDER)?;
        writeln!(self.text, "forgive {FIRST_ORDER} at {DEADLINE}: accepted")?;
        Ok(())
    }

    // The verdict on a demand that is owed beside what is due already.
    fn write_verdict(&mut self, deadline: u32, demand: u32) -> anyhow::Result<()>
        ensures { OnOk result
            (B.Book.meaning self.new.book
            ≡ owe_leaves (B.Book.meaning self.old.book) deadline demand) }
    {
        let fit = if fits(&mut self.book, deadline, demand)? {
            "fits"
        } else {
            "does not fit"
        };
        write!(self.text, "owe {demand} more at {deadline}: {fit}, ")?;
        match self.book.owe(deadline, demand) {
            Ok(()) => writeln!(self.text, "accepted"),
            Err(refusal) => writeln!(self.text, "{refusal}"),
        }?;
        Ok(())
    }

    // Lets a slot pass for each owner in turn. The first refusal ends it.
    fn write_slots(&mut self, owners: &[Option<u32>]) -> anyhow::Result<()>
        ensures { OnOk result
            (B.Book.meaning self.new.book ≡ ran (B.Book.meaning self.old.book) owners.now) }
    {
        writeln!(self.text, "\nSlots")?;
        for &owner in owners {
            let slot = self.book.clock();
            self.book.run(owner)?;
            match owner {
                Some(deadline) => writeln!(self.text, "{slot:>2}: for {deadline}"),
                None => writeln!(self.text, "{slot:>2}: for nobody"),
            }?;
        }
        Ok(())
    }
}

// Clears a book to a horizon, cuts it at each deadline and owes the demand there. The first refusal ends it.
fn fill<B: Book>(book: &mut B, horizon: u32, demands: &[Boundary]) -> Result<(), Refusal>
    ensures { OnOk result (B.Book.meaning book.new ≡ filled (cleared horizon) demands.now) }
{
    book.clear(horizon)?;
    for &Boundary { end, due } in demands {
        book.cut(end)?;
        book.owe(end, due)?;
    }
    Ok(())
}
