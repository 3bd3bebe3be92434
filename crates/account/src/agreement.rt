//! The accounts of the three books, and whether they are the same text.
ghost use Rattle.std.specs.Prelude.{◌↔◌, IsTrue};

use std::io;

// What the last line says.
const AGREE: &str = "The three books agree.";

const DISAGREE: &str = "The three books do not agree.";

// The account over each of the three books.
#[derive(Drop)]
pub(crate) struct Accounts {
    pub(crate) plain: String,
    pub(crate) slot: String,
    pub(crate) deferred: String,
}

impl Accounts {
    ghost use Rattle.account.specs.Agreement.{Agree, ClosedBy};

    // Whether the three accounts are the same, byte for byte.
    fn agree(&self) -> bool
        ensures { IsTrue result ↔ Agree self.now }
    {
        self.plain == self.slot && self.slot == self.deferred
    }

    // The last line, which says whether the three accounts are the same.
    fn closing_line(&self) -> &'static str
        ensures { ClosedBy (Agree self.now) result.now }
    {
        if self.agree() { AGREE } else { DISAGREE }
    }

    // Each account under the name of its book, and the line that compares them.
    pub(crate) fn print(&self, rt: &impl Print) -> io::Result<()> {
        println!(rt; "Account of the worked example\n")?;
        println!(rt; "Plain book\n{}", self.plain)?;
        println!(rt; "Slot-by-slot book\n{}", self.slot)?;
        println!(rt; "Deferred book\n{}", self.deferred)?;
        println!(rt; "{}", self.closing_line())
    }
}
