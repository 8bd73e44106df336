// Records, which tell a dividend and a divisor.
ghost use Rattle.std.specs.Prelude.{◌≡◌, ◌*◌, ◌^◌, ◌<◌, ◌≤◌, pos, negsuc, ◌-ℤ◌, ◌≤ℤ◌, IfOk, None, Ok, Result, Some, if◌then◌else◌, unsigned_abs};
ghost use Rattle.std.specs.Result.{result_err};
ghost use Rattle.refusals.specs.declared.Fault.{Fault};
ghost use Rattle.refusals.specs.declared.Refusal.TheVariants.{RoundOutOfRange};
ghost use Rattle.refusals.specs.Refusals.{at_no_place};
ghost use Rattle.decimal.specs.Numbers.{datum};
ghost use Rattle.runs.specs.Records.{Operands, meant, pair_operands, round_in_range, round_judged, round_tenths, whole_datum};

use decimal::{Finite, Number};
use divider::Pair;
use refusals::{Fault, Refusal};
use rounding::Sign;

/// What a run posts: anything that tells a dividend and a divisor, or why it has none.
pub trait Record {
    ghost operands_or_fault: { Self → Result Operands Fault };

    /// The dividend and the divisor, in this order, as a tuple as the definition is: a struct of two numbers would be taken apart at each use.
    fn operands(&self) -> Result<(Number, Number), Fault>
        ensures { meant result ≡ operands_or_fault self.now };
}

/// A golf round: gross score, course rating in tenths, adjustment for playing conditions, and slope.
#[derive(Clone, Copy)]
pub struct Round {
    pub gross: u32,
    pub rating: u32,
    pub adjustment: i32,
    pub slope: u32,
}

impl Record for Pair {
    ghost operands_or_fault = { λ p. Ok (pair_operands p) };

    fn operands(&self) -> Result<(Number, Number), Fault> {
        Ok(self.numbers())
    }
}

// A round that was judged, and is in range.
#[derive(Drop)]
struct InRange {
    round: Round,
    ghost score: { (round.gross ≤ 399) × (round.rating ≤ 999) },
    ghost adjustment: { (negsuc 0 ≤ℤ round.adjustment) × (round.adjustment ≤ℤ pos 3) },
    ghost slope: { round.slope ≤ 155 },
}

impl InRange {
    // The round, if each of its parts is within its limits.
    fn of(round: Round) -> Result<InRange, Fault>
        ensures refused { result_err result ≡ (if round_in_range round then None else Some (at_no_place RoundOutOfRange)) }
        ensures same { IfOk result (λ judged. judged.round ≡ round) }
    {
        let in_range = (18..=399).contains(&round.gross)
            && (300..=999).contains(&round.rating)
            && (-1..=3).contains(&round.adjustment)
            && (55..=155).contains(&round.slope);
        if !in_range {
            return Err(Refusal::RoundOutOfRange.into());
        }
        Ok(InRange { round })
    }

    // The tenths of the score above the rating.
    fn above_rating(&self) -> i32
        ensures value { result ≡ pos (10 * self.now.round.gross) -ℤ pos self.now.round.rating }
        ensures small { unsigned_abs result ≤ 3990 }
    {
        10 * self.round.gross as i32 - self.round.rating as i32
    }

    // The tenths of the dividend.
    fn tenths(&self) -> i32
        ensures value { result ≡ round_tenths self.now.round.gross self.now.round.rating self.now.round.adjustment }
        ensures small { unsigned_abs result < 10 ^ 7 }
    {
        113 * (self.above_rating() - 10 * self.round.adjustment)
    }
}

// A whole number with an exponent.
fn whole_number(value: i32, exponent: i32) -> Number
    requires { (unsigned_abs value < 10 ^ 7) × ((negsuc 100 ≤ℤ exponent) × (exponent ≤ℤ pos 90)) }
    ensures { datum result ≡ whole_datum value exponent }
{
    let sign = if value < 0 { Sign::Minus } else { Sign::Plus };
    Number::Finite(Finite {
        sign,
        coefficient: value.unsigned_abs(),
        exponent,
    })
}

impl Record for Round {
    ghost operands_or_fault = { λ r. round_judged r };

    fn operands(&self) -> Result<(Number, Number), Fault> {
        let judged = InRange::of(*self)?;
        Ok((
            whole_number(judged.tenths(), -1),
            whole_number(judged.round.slope as i32, 0),
        ))
    }
}
