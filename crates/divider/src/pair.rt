// The two words of a division.
ghost use Rattle.std.specs.Prelude.{◌≡◌};
ghost use Rattle.decimal.specs.Numbers.{datum};
ghost use Rattle.decimal.specs.Words.{decimal32, number_of};

use decimal::{Number, read_word};

/// A dividend and a divisor, as words.
#[derive(Clone, Copy)]
pub struct Pair {
    pub dividend: u32,
    pub divisor: u32,
}

impl Pair {
    /// The dividend and the divisor, as the numbers that their words stand for. Two numbers are a tuple, dividend first: each use takes them
    /// apart, so that a struct of them would say no more.
    #[inline(always)]
    pub fn numbers(self) -> (Number, Number)
        ensures dividend { datum result.0 ≡ number_of decimal32 self.dividend }
        ensures divisor { datum result.1 ≡ number_of decimal32 self.divisor }
    {
        (read_word(self.dividend), read_word(self.divisor))
    }
}
