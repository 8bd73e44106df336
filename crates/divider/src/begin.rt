// Beginning a division.
ghost use Rattle.std.specs.Prelude.{◌≡◌, ◌+◌, ◌-◌, ◌*◌, ◌/◌, ◌^◌, ◌<◌, ◌≤◌, IfOk};
ghost use Rattle.decimal.specs.Numbers.{datum};
ghost use Rattle.quotient.specs.Quotients.{decimal32, quotient_top, quotient_bottom};
ghost use Rattle.reciprocal.specs.Sources.{Approximates};
ghost use Rattle.divider.specs.Drafts.{StandsFor, StandsForQuotient, begin_by, counted, draft_by, draft_from, product_sign, widening};

use crate::draft::Draft;
use crate::nine::NineDigits;
use crate::normal::Normal;
use decimal::{Finite, Number};
use reciprocal::Source;
use refusals::{Fault, Refusal};
use rounding::Sign;

pub(crate) fn multiply_signs(first: Sign, second: Sign) -> Sign
    ensures { result ≡ product_sign first second }
{
    match (first, second) {
        (Sign::Plus, Sign::Plus) | (Sign::Minus, Sign::Minus) => Sign::Plus,
        (Sign::Plus, Sign::Minus) | (Sign::Minus, Sign::Plus) => Sign::Minus,
    }
}

// A dividend that was widened by zeros, and one more than its quotient by the reciprocal.
#[derive(Clone, Copy)]
struct Widened {
    zeros: u32,
    dividend: u64,
    biased: u64,
}

fn widen(dividend: u64, divisor: u64, reciprocal: u64) -> Widened
    requires { (dividend < 10000000) × (dividend * reciprocal < 1000000000000000000) }
    ensures zeros { result.zeros ≡ widening dividend divisor }
    ensures few { (7 ≤ result.zeros) × (result.zeros ≤ 8) }
    ensures dividend { result.dividend ≡ dividend * 10 ^ widening dividend divisor }
    ensures biased { result.biased ≡ 1 + dividend * reciprocal / 10 ^ (17 - widening dividend divisor) }
{
    // Each power stands as a number: a division by a power that is computed misses the bar of speed, by 1.8 million instructions of `divide`
    // on its stored lines.
    if dividend < divisor {
        Widened {
            zeros: 8,
            dividend: dividend * 100_000_000,
            biased: 1 + dividend * reciprocal / 1_000_000_000,
        }
    } else {
        Widened {
            zeros: 7,
            dividend: dividend * 10_000_000,
            biased: 1 + dividend * reciprocal / 10_000_000_000,
        }
    }
}

// The draft of two numbers of seven digits, with the reciprocal of the divisor.
fn assemble(sign: Sign, y: Normal, x: Normal, reciprocal: u64) -> Draft
    requires nonzero { 0 < x.digits }
    requires near { Approximates 9 x.digits reciprocal }
    ensures { result ≡ draft_by sign y.digits y.zeros y.exponent x.digits x.zeros x.exponent reciprocal }
{
    let divisor = x.digits as u64;
    let widened = widen(y.digits as u64, divisor, reciprocal);
    let place = y.exponent + x.zeros + 205 - y.zeros - widened.zeros as u16;
    Draft {
        sign,
        widened: widened.dividend,
        divisor,
        biased: widened.biased,
        place: place.saturating_sub(x.exponent),
        ideal: (y.exponent + 101).saturating_sub(x.exponent),
        finished: false,
    }
}

// The draft of two finite numbers.
pub(crate) fn begin_finite<S: Source>(source: &NineDigits<S>, y: Finite, x: Finite) -> Draft
    requires { 0 < x.coefficient }
    ensures held { result ≡ draft_from (S.Source.reciprocal source.now.source.now) y.sign y.coefficient (counted y.exponent) x.sign x.coefficient (counted x.exponent) }
    ensures stands { StandsFor result (quotient_top decimal32 y.coefficient (counted y.exponent)) (quotient_bottom x.coefficient (counted x.exponent)) }
{
    let divisor = Normal::of(x);
    let reciprocal = source.reciprocal(divisor.digits);
    assemble(
        multiply_signs(y.sign, x.sign),
        Normal::of(y),
        divisor,
        reciprocal,
    )
}

impl Draft {
    /// Begins the division of two numbers with a reciprocal of `source`. Refuses a source that claims under nine, then an operand
    /// that is not finite, then a zero divisor. The draft stands for the exact quotient.
    pub fn begin<S: Source>(source: &S, dividend: &Number, divisor: &Number) -> Result<Draft, Fault>
        ensures held { result ≡ begin_by (S.Source.claim source.now) (S.Source.reciprocal source.now) (datum dividend.now) (datum divisor.now) }
        ensures stands { IfOk result (λ d. StandsForQuotient d (datum dividend.now) (datum divisor.now)) }
    {
        let source = NineDigits::of(source)?;
        let (Number::Finite(y), Number::Finite(x)) = (*dividend, *divisor) else {
            return Err(Refusal::OperandNotFinite.into());
        };
        if x.coefficient == 0 {
            return Err(Refusal::ZeroDivisor.into());
        }
        Ok(begin_finite(&source, y, x))
    }
}
