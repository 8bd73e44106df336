// A quotient counted in steps.
ghost use Rattle.std.specs.Prelude.{◌≡◌, ℕ};
ghost use Rattle.std.specs.Option.{option_map};
ghost use Rattle.quotient.specs.Quotients.{decimal32};
ghost use Rattle.quotient.specs.Splits.{between, split_at};
ghost use Rattle.divider.specs.Drafts.{StandsFor};

use crate::draft::Draft;
use quotient::Split;
use rounding::Sign;

impl Draft {
    /// Counts the quotient in steps of 10^-step, and ends the draft: its sign, and its magnitude between two whole numbers of steps, or
    /// nothing where that is 10,000,000 steps or more. Whatever fraction n / d the draft stands for, in units of the least exponent,
    /// the answer is the definition's at n / d.
    pub fn in_steps(mut self, step: u16) -> (Sign, Option<Split>)
        ensures sign { result.0 ≡ self.sign }
        ensures steps { (n d : ℕ) → StandsFor self n d → option_map between result.1 ≡ split_at decimal32 step n d }
    {
        self.finished = true;
        (self.sign, self.leading().split_at(step))
    }
}
