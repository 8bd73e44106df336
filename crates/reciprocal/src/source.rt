// What every source of reciprocals owes.
ghost use Rattle.std.specs.Prelude.{◌≡◌, ℕ, ◌<◌, ◌≤◌};
ghost use Rattle.reciprocal.specs.Sources.{Approximates, asked};

use refusals::{Fault, Refusal};

/// A source of reciprocals: for each divisor of seven digits one number, near 10^(claim + 8) / divisor and below it.
pub trait Source {
    // The digits that the source claims, and its reciprocal for each divisor.
    ghost claim: { Self → ℕ };

    ghost reciprocal: { Self → ℕ → ℕ };

    /// The digits that the source claims.
    fn claimed(&self) -> u32
        ensures { result ≡ claim self.now };

    /// The reciprocal of a divisor of seven digits. Refuses any other divisor.
    fn ask(&self, divisor: u32) -> Result<u64, Fault>
        ensures { result ≡ asked (reciprocal self.now) divisor };

    ghost claims: { (s : Self) → (1 ≤ claim s) × (claim s ≤ 9) };

    ghost approximates: { (s : Self) (d : ℕ) → 1000000 ≤ d → d < 10000000 → Approximates (claim s) d (reciprocal s d) };
}

// The divisor, if it has seven digits.
pub(crate) fn seven_digits(divisor: u32) -> Result<u64, Fault>
    ensures { result ≡ asked (λ d. d) divisor }
{
    if !(1_000_000..=9_999_999).contains(&divisor) {
        return Err(Refusal::DivisorNotSevenDigits.into());
    }
    Ok(divisor as u64)
}
