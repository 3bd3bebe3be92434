//! The worked figures: one list of facts in specs/, all of them proved here.
#![tactic(auto)]

ghost use Rattle.std.specs.Prelude.{◌≡◌, length};
ghost use Rattle.figures.specs.Figures.{figures, AllHold};

/// How many worked figures there are. All of them hold.
pub fn worked_figures() -> usize
    ensures hold { AllHold figures }
    ensures count { result ≡ length figures }
{
    7
}
