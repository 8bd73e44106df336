// Reciprocals from a table by the first digits of the divisor.
ghost use Rattle.std.specs.Prelude.{◌≡◌, ℕ, ◌<◌, ◌≤◌, ◌-◌, ◌*◌, ◌^◌};
ghost use Rattle.reciprocal.specs.Sources.{entry, entries, table_reciprocal};
ghost use Rattle.std.proofs.Common.{arith, rules};
ghost use Rattle.reciprocal.specs.Leading;

use crate::powers::power_of_ten;
use crate::source::{Source, seven_digits};
use crate::tables::{THREE_DIGIT_ENTRIES, TWO_DIGIT_ENTRIES};
use refusals::Fault;

/// A table by the first digits of the divisor, two or three of them.
pub trait DigitTable {
    // How many digits the table goes by.
    const DIGITS: u32;

    ghost DIGITS: { ℕ };

    /// The entries, one for each number of so many digits.
    fn entries() -> &'static [u32]
        ensures { result.now ≡ entries DIGITS };

    // A table by two or three digits approximates.
    ghost width: { (2 ≤ DIGITS) × (DIGITS ≤ 3) };
}

// The entry for the divisors that begin with the digits `first`.
#[tactic(auto, using(crate::proofs::Entries::entry_lemmas))]
fn entry_of<T: DigitTable>(first: u64) -> u64
    requires { (10 ^ (T.DIGITS - 1) ≤ first) × (first < 10 ^ T.DIGITS) }
    ensures { result ≡ entry T.DIGITS first }
{
    T::entries()[(first - power_of_ten(T::DIGITS - 1)) as usize] as u64
}

// Every table is a source: it claims one digit by two and three by three.
impl<T: DigitTable> Source for T {
    ghost claim = { λ s. 2 * T.DIGITS - 3 };

    ghost reciprocal = { λ s d. table_reciprocal T.DIGITS d };

    ghost claims = { omega (arith, T.width) };

    ghost approximates = { λ s d lo hi. Leading.approximates T.DIGITS d (Leading.parted T.DIGITS d T.width lo hi) };

    fn claimed(&self) -> u32 {
        2 * T::DIGITS - 3
    }

    fn ask(&self, divisor: u32) -> Result<u64, Fault> {
        let divisor = seven_digits(divisor)?;
        let unit = power_of_ten(7 - T::DIGITS);
        let first = divisor / unit;
        let next = divisor % unit / power_of_ten(7 - 2 * T::DIGITS);
        let scale = power_of_ten(T::DIGITS);
        let factor = scale * first + (scale - 1) - next;
        Ok(entry_of::<T>(first) * factor / power_of_ten(2 * T::DIGITS))
    }
}

/// The table by the first three digits. It claims three digits.
#[derive(Clone, Copy)]
pub struct ThreeDigitTable;

impl DigitTable for ThreeDigitTable {
    const DIGITS: u32 = 3;

    ghost DIGITS = { 3 };

    ghost width = { Prim.search rules };

    fn entries() -> &'static [u32] {
        &THREE_DIGIT_ENTRIES
    }
}

/// The table by the first two digits. It claims one digit.
#[derive(Clone, Copy)]
pub struct TwoDigitTable;

impl DigitTable for TwoDigitTable {
    const DIGITS: u32 = 2;

    ghost DIGITS = { 2 };

    ghost width = { Prim.search rules };

    fn entries() -> &'static [u32] {
        &TWO_DIGIT_ENTRIES
    }
}
