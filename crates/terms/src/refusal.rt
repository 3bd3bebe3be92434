ghost use Rattle.std.specs.Prelude.{◌≡◌, ◌++◌, Some, codes, decimal};
ghost use Rattle.terms.specs.Answers.{number_of};

use std::error::Error;
use std::fmt;

/// Why a call says no. A refusal changes nothing, and where several apply the smallest number is answered.
#[derive(Clone, Copy, PartialEq, Eq, Debug)]
pub enum Refusal {
    /// The bytes end inside a number, or where one must begin.
    Truncated = 1,
    /// A number is not in its shortest form, or has a fourth group.
    Overlong = 2,
    /// A horizon or a count of jobs is out of its range.
    OutOfRange = 3,
    /// A window, a demand or a place breaks its rule.
    Unfit = 4,
    /// Bytes follow the last job.
    Surplus = 5,
    /// Nothing is held under that number, or not so much is due there.
    NotHeld = 6,
    /// The clock stands at the horizon.
    AtHorizon = 7,
    /// The plan's records are full, or the buffer is too short.
    Full = 8,
    /// There would be one boundary too many.
    TooManyBoundaries = 9,
    /// Every number has been given out.
    NumbersSpent = 10,
    /// No capacity is left for it.
    NoCapacity = 11,
    /// The order line is malformed.
    BadLine = 12,
}

impl Refusal {
    /// The number by which this refusal is known outside.
    pub fn number(self) -> u8
        ensures { result ≡ number_of self }
    {
        self as u8
    }
}

// A refusal is written by its number, as it is known outside.
impl fmt::Display for Refusal {
    ghost output = { λ x. Some (codes "refused " ++ decimal (number_of x)) };

    fn fmt<W: fmt::Write>(&self, f: &mut fmt::Formatter<W>) -> fmt::Result {
        let number = self.number();
        write!(f, "refused {number}")
    }
}

impl Error for Refusal {}
