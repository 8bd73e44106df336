// Quotients counted in steps.
ghost use Rattle.std.specs.Prelude.{◌≡◌, ◌*◌, ◌≤◌, unsigned_abs};
ghost use Rattle.quotient.specs.Splits.{between};
ghost use Rattle.card.specs.Tallies.{is_exact, whole_steps_of};

use quotient::Split;
use rounding::{Mode, Sign};

/// A quotient in steps: its sign, and its magnitude between two whole numbers of steps.
#[derive(Clone, Copy)]
pub(crate) struct Steps {
    pub(crate) sign: Sign,
    pub(crate) split: Split,
}

impl Steps {
    // Is it a whole number of steps?
    pub(crate) fn is_whole(self) -> bool
        ensures { result ≡ is_exact (between self.split) }
    {
        self.split.position.is_whole()
    }

    // The whole number of steps that the mode makes of it.
    pub(crate) fn rounded(self, mode: Mode) -> i64
        ensures value { result ≡ whole_steps_of mode self.sign (between self.split) }
        ensures small { unsigned_abs result ≤ 10000000 }
    {
        let magnitude = self.split.rounded(mode, self.sign) as i64;
        match self.sign {
            Sign::Plus => magnitude,
            Sign::Minus => -magnitude,
        }
    }
}
