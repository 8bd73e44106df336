// Reciprocals by short division: the largest lawful answer.
ghost use Rattle.std.specs.Prelude.{◌≡◌, ◌≤◌};
ghost use Rattle.reciprocal.specs.Sources.{lawful_claim, short_reciprocal};
ghost use Rattle.std.proofs.Common.{arith};
ghost use Rattle.reciprocal.specs.Division;

use crate::powers::power_of_ten;
use crate::source::{Source, seven_digits};
use refusals::Fault;

/// Short division, at a claim of one to nine digits.
#[derive(Clone, Copy)]
pub struct ShortDivision {
    pub claim: u32,
    ghost limits: { (1 ≤ claim) × (claim ≤ 9) },
}

impl ShortDivision {
    /// Short division at the claim, or at one for a claim of 0, and at nine for a larger one.
    pub fn claiming(claim: u32) -> ShortDivision
        ensures { result.claim ≡ lawful_claim claim }
    {
        ShortDivision {
            claim: claim.clamp(1, 9),
        }
    }
}

impl Source for ShortDivision {
    ghost claim = { λ s. s.claim };

    ghost reciprocal = { λ s d. short_reciprocal s.claim d };

    ghost claims = { λ s. s.limits };

    ghost approximates = { λ s d lo hi. Division.approximates s.claim d (omega arith) };

    fn claimed(&self) -> u32 {
        self.claim
    }

    fn ask(&self, divisor: u32) -> Result<u64, Fault> {
        let divisor = seven_digits(divisor)?;
        Ok((power_of_ten(self.claim + 8) - 1) / divisor)
    }
}
