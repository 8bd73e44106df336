// Sources that claim nine digits, over which every draft is within one of its quotient.
ghost use Rattle.std.specs.Prelude.{◌≡◌, ◌<◌, ◌≤◌, IfOk, if◌then◌else◌, None, Some, nat_lt};
ghost use Rattle.std.specs.Result.{result_err};
ghost use Rattle.refusals.specs.Refusals.{at_no_place};
ghost use Rattle.refusals.specs.declared.Refusal.TheVariants.{ClaimUnderNine};
ghost use Rattle.reciprocal.specs.Sources.{Approximates};

use reciprocal::Source;
use refusals::{Fault, Refusal};

/// A source of reciprocals that claims nine.
#[derive(Drop)]
pub(crate) struct NineDigits<'a, S: Source> {
    pub(crate) source: &'a S,
    ghost nine: { S.Source.claim source.now ≡ 9 },
}

impl<'a, S: Source> NineDigits<'a, S> {
    // The source, if it claims nine. Refuses one that claims fewer.
    pub(crate) fn of(source: &'a S) -> Result<NineDigits<'a, S>, Fault>
        ensures refused { result_err result ≡ (if nat_lt (S.Source.claim source.now) 9 then Some (at_no_place ClaimUnderNine) else None) }
        ensures same { IfOk result (λ nine. nine.source.now ≡ source.now) }
    {
        if source.claimed() < 9 {
            return Err(Refusal::ClaimUnderNine.into());
        }
        Ok(NineDigits { source })
    }

    // The reciprocal of a divisor of seven digits.
    pub(crate) fn reciprocal(&self, divisor: u32) -> u64
        requires { (1000000 ≤ divisor) × (divisor < 10000000) }
        ensures value { result ≡ S.Source.reciprocal self.now.source.now divisor }
        ensures near { Approximates 9 divisor result }
    {
        self.source.ask(divisor).unwrap()
    }
}
