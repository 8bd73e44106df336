// The corrected quotient of a draft, and its rounding.
ghost use Rattle.std.specs.Prelude.{◌≡◌, ℕ, ◌/◌, ◌%◌, ◌<◌, nat_lt};
ghost use Rattle.decimal.specs.Numbers.{datum};
ghost use Rattle.quotient.specs.Drafts.{InRange};
ghost use Rattle.quotient.specs.Quotients.{decimal32, divided};
ghost use Rattle.divider.specs.Divisions.{outcome, signed_magnitude, under_sign};
ghost use Rattle.divider.specs.Drafts.{StandsFor};
ghost use Rattle.divider.specs.Held.{Keeps};

use crate::draft::Draft;
use crate::outcome::Quotient;
use decimal::{Finite, Number};
use quotient::{Leading, Magnitude};
use rounding::{Mode, Sign};

// The number of a magnitude and a sign. It is no `From`, since the magnitude has to be in range.
fn number_of(sign: Sign, magnitude: Magnitude) -> Number
    requires { InRange magnitude }
    ensures { datum result ≡ signed_magnitude sign magnitude }
{
    match magnitude {
        Magnitude::Finite(coefficient, counted) => {
            let exponent = counted as i32 - 101;
            Number::Finite(Finite {
                sign,
                coefficient,
                exponent,
            })
        }
        Magnitude::Infinite => Number::Infinite(sign),
    }
}

impl Draft {
    /// The quotient of the widened dividend by the divisor, without its fraction: the biased quotient, or one less where that is too
    /// large. What every draft keeps is told with it.
    pub fn corrected(&self) -> u64
        ensures value { result ≡ self.now.widened / self.now.divisor }
        ensures kept { Keeps self.now }
    {
        if self.biased * self.divisor > self.widened {
            self.biased - 1
        } else {
            self.biased
        }
    }

    /// Is anything left beside the corrected quotient? What every draft keeps is told here too.
    pub fn leaves_remainder(&self) -> bool
        ensures value { result ≡ nat_lt 0 (self.now.widened % self.now.divisor) }
        ensures kept { Keeps self.now }
    {
        self.corrected() * self.divisor < self.widened
    }

    // The leading digits of the quotient.
    pub(crate) fn leading(&self) -> Leading
        ensures digits { result.digits ≡ self.now.widened / self.now.divisor }
        ensures left { result.left ≡ nat_lt 0 (self.now.widened % self.now.divisor) }
        ensures place { result.place ≡ self.now.place }
    {
        let place = self.place;
        Leading {
            digits: self.corrected() as u32,
            left: self.leaves_remainder(),
            place,
        }
    }

    /// Rounds the quotient to decimal32, once, and ends the draft. Whatever fraction n / d the draft stands for, in units of the least
    /// exponent, the answer is the definition's at n / d.
    pub fn round(mut self, mode: Mode) -> Quotient
        ensures { (n d : ℕ) → StandsFor self n d → outcome result ≡ under_sign self.sign (divided decimal32 mode self.sign n d self.ideal) }
    {
        self.finished = true;
        let rounded = self.leading().round(mode, self.sign, self.ideal);
        Quotient {
            number: number_of(self.sign, rounded.magnitude),
            flags: rounded.flags,
        }
    }
}
