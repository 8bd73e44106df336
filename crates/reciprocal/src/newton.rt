// Newton's step over any source.
ghost use Rattle.reciprocal.specs.Layers.{finer, layered};
ghost use Rattle.reciprocal.specs.Steps;
ghost use Rattle.std.proofs.Common.{rules};

use crate::powers::power_of_ten;
use crate::source::Source;
use crate::table::ThreeDigitTable;
use refusals::Fault;

/// A layer of Newton's step. It claims twice the digits of the source below, and at most nine.
#[derive(Clone, Copy)]
pub struct Newton<S>(pub S);

/// Two layers over the three-digit table, which claim nine digits.
pub const TWO_LAYERS: Newton<Newton<ThreeDigitTable>> = Newton(Newton(ThreeDigitTable));

impl<S: Source> Source for Newton<S> {
    ghost claim = { λ s. finer (S.Source.claim s.0) };

    ghost reciprocal = { λ s d. layered (S.Source.claim s.0) d (S.Source.reciprocal s.0 d) };

    ghost claims = { Prim.search rules };

    ghost approximates = { λ s d lo hi. Steps.approximates _ d _ (S.Source.claims s.0).0 lo hi (S.Source.approximates s.0 d lo hi) };

    fn claimed(&self) -> u32 {
        (2 * self.0.claimed()).min(9)
    }

    fn ask(&self, divisor: u32) -> Result<u64, Fault> {
        let answer = self.0.ask(divisor)?;
        let claim = self.0.claimed();
        // The step goes from at most six digits.
        let cut = answer / power_of_ten(claim.saturating_sub(6));
        let claim = claim.min(6);
        let places = (2 * claim).min(9) + 2;
        let one = power_of_ten(places);
        let unit = power_of_ten(claim + 8 - places);
        let product = divisor as u64 * cut / unit;
        let gap = 2 * one - 1 - product;
        Ok(cut * gap / power_of_ten(claim + 2))
    }
}
