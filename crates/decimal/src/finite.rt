// A finite number made from its parts, and its parts read.
ghost use Rattle.std.specs.Prelude.{◌≡◌};
ghost use Rattle.decimal.specs.Numbers.{finite_made, finite_seen};

use crate::number::Finite;
use refusals::{Fault, Refusal};
use rounding::Sign;

impl Finite {
    /// The finite number of these parts. Refuses a coefficient above 9,999,999, then an exponent outside -101 to 90.
    pub fn new(sign: Sign, coefficient: u32, exponent: i32) -> Result<Finite, Fault>
        ensures { finite_seen result ≡ finite_made sign coefficient exponent }
    {
        if coefficient > 9_999_999 {
            return Err(Refusal::CoefficientTooLarge.into());
        }
        if !(-101..=90).contains(&exponent) {
            return Err(Refusal::ExponentOutOfRange.into());
        }
        Ok(Finite {
            sign,
            coefficient,
            exponent,
        })
    }
}
