//! The slots of a book that are still to come: after its clock and up to its horizon.
ghost use Rattle.std.specs.Prelude.{◌≡◌, ◌+◌, ◌≤◌, not, IfOk, OnOk, OnErr};
ghost use Rattle.terms.specs.Answers.{said, mapped, refuse, value};
ghost use Rattle.terms.specs.Limits.{longest_horizon};
ghost use Rattle.capacity.specs.Calls.{clear_says, lies_ahead, pass_says};

use terms::Refusal;
use terms::limits::MAX_HORIZON;

/// A clock and a horizon; the slots between them are to come.
#[derive(Clone, Copy, PartialEq, Eq, Debug)]
pub struct Timeline {
    pub clock: u32,
    pub horizon: u32,
    ghost ordered: { clock ≤ horizon },
    ghost ranged: { horizon ≤ longest_horizon },
}

impl Timeline {
    /// A timeline at clock 0 with a horizon. Refused 3 unless the horizon is 1 to 1,000,000.
    pub fn new(horizon: u32) -> Result<Timeline, Refusal>
        ensures answer { mapped (λ _. tt) (said result) ≡ clear_says horizon }
        ensures clock { IfOk result (λ t. t.clock ≡ 0) }
        ensures horizon { IfOk result (λ t. t.horizon ≡ horizon) }
    {
        if !(1..=MAX_HORIZON).contains(&horizon) {
            return Err(Refusal::OutOfRange);
        }
        Ok(Timeline { clock: 0, horizon })
    }

    /// Lets a slot or a deadline in that is still to come. Refused 4 unless it is after the clock and not after the horizon.
    pub fn admit(self, slot: u32) -> Result<(), Refusal>
        ensures { said result ≡ refuse 4 (not (lies_ahead self.clock self.horizon slot)) (value tt) }
    {
        if self.clock < slot && slot <= self.horizon {
            Ok(())
        } else {
            Err(Refusal::Unfit)
        }
    }

    /// Lets a slot pass. Refused 7 at the horizon.
    pub fn pass(&mut self) -> Result<(), Refusal>
        ensures answer { said result ≡ pass_says self.old.clock self.old.horizon }
        ensures clock { OnOk result (self.new.clock ≡ self.old.clock + 1) }
        ensures horizon { self.new.horizon ≡ self.old.horizon }
        ensures refused { OnErr result (self.new ≡ self.old) }
    {
        if self.clock == self.horizon {
            return Err(Refusal::AtHorizon);
        }
        self.clock += 1;
        Ok(())
    }
}

impl Default for Timeline {
    ghost is_default = { λ t. (t.clock ≡ 0) × (t.horizon ≡ 1) };

    /// The shortest timeline: clock 0, horizon 1.
    fn default() -> Self {
        Timeline {
            clock: 0,
            horizon: 1,
        }
    }
}
