// Entries judged.
ghost use Rattle.std.specs.Prelude.{◌≡◌, ◌^◌, ◌<◌, pos, negsuc, ◌≤ℤ◌, IfOk};
ghost use Rattle.std.specs.Result.{result_map_both};
ghost use Rattle.decimal.specs.Numbers.{Datum, finite_datum};
ghost use Rattle.entries.specs.Entries.{part, parts, seen};
ghost use Rattle.entries.specs.Requests.{Asked, asked_by, asked_result, coefficient_of, exponent_of, mode_at, numbers_of, quotient, posting, sign_of};

use crate::entry::{Entry, Operands};
use crate::field::{Field, Numeral};
use crate::request::Request;
use decimal::Finite;
use refusals::{Fault, Refusal};
use rounding::{Mode, Sign};

// A coefficient of at most seven digits.
fn coefficient(field: &Field, number: Numeral) -> Result<u32, Fault>
    ensures value { result ≡ coefficient_of (part field.now) number }
    ensures small { IfOk result (λ c. c < 10 ^ 7) }
{
    if number.magnitude > 9_999_999 {
        return Err(Fault {
            refusal: Refusal::CoefficientTooLarge,
            place: field.column,
        });
    }
    Ok(number.magnitude)
}

// An exponent from -101 to 90.
fn exponent(field: &Field, number: Numeral) -> Result<i32, Fault>
    ensures value { result ≡ exponent_of (part field.now) number }
    ensures least { IfOk result (λ e. negsuc 100 ≤ℤ e) }
    ensures most { IfOk result (λ e. e ≤ℤ pos 90) }
{
    let greatest = if number.negative { 101 } else { 90 };
    if number.magnitude > greatest {
        return Err(Fault {
            refusal: Refusal::ExponentOutOfRange,
            place: field.column,
        });
    }
    let magnitude = number.magnitude as i32;
    Ok(if number.negative {
        -magnitude
    } else {
        magnitude
    })
}

fn sign(number: Numeral) -> Sign
    ensures { result ≡ sign_of number }
{
    if number.negative {
        Sign::Minus
    } else {
        Sign::Plus
    }
}

// The mode of a number.
fn mode(field: &Field, number: Numeral) -> Result<Request, Fault>
    ensures { asked_result result ≡ mode_at field.now.column number }
{
    let unknown = Fault {
        refusal: Refusal::UnknownMode,
        place: field.column,
    };
    let numbered = if number.negative { 0 } else { number.magnitude };
    match Mode::try_from(numbered) {
        Ok(mode) => Ok(Request::SetMode(mode)),
        Err(_) => Err(unknown),
    }
}

impl Operands<'_> {
    // The two numbers. Each field is judged to be a number before a coefficient is judged, and each coefficient before an exponent.
    fn numbers(&self) -> Result<(Finite, Finite), Fault>
        ensures { (f : Datum → Datum → Asked) → result_map_both (λ p. f (finite_datum p.0) (finite_datum p.1)) (λ e. e) result ≡ numbers_of (parts self.now) f }
    {
        let y = self.dividend.numeral()?;
        let y_exponent = self.dividend_exponent.numeral()?;
        let x = self.divisor.numeral()?;
        let x_exponent = self.divisor_exponent.numeral()?;
        let y_coefficient = coefficient(&self.dividend, y)?;
        let x_coefficient = coefficient(&self.divisor, x)?;
        let dividend = Finite {
            sign: sign(y),
            coefficient: y_coefficient,
            exponent: exponent(&self.dividend_exponent, y_exponent)?,
        };
        let divisor = Finite {
            sign: sign(x),
            coefficient: x_coefficient,
            exponent: exponent(&self.divisor_exponent, x_exponent)?,
        };
        Ok((dividend, divisor))
    }
}

impl Entry<'_> {
    /// What the entry asks for. Refuses fields that say no number or are not blank, then coefficients above 9,999,999, then exponents
    /// outside -101 to 90, each time the leftmost; and a number that is no mode.
    pub fn request(&self) -> Result<Request, Fault>
        ensures { asked_result result ≡ asked_by (seen self.now) }
    {
        match self {
            Entry::Mode(number, rest) => {
                let numeral = number.numeral()?;
                rest.is_unused()?;
                mode(number, numeral)
            }
            Entry::Divide(operands) => {
                let (dividend, divisor) = operands.numbers()?;
                Ok(Request::Divide(dividend, divisor))
            }
            Entry::Post(operands) => {
                let (dividend, divisor) = operands.numbers()?;
                Ok(Request::Post(dividend, divisor))
            }
            Entry::Totals(rest) => {
                rest.is_unused()?;
                Ok(Request::Totals)
            }
            Entry::Clear(rest) => {
                rest.is_unused()?;
                Ok(Request::Clear)
            }
            Entry::Lower(rest) => {
                rest.is_unused()?;
                Ok(Request::Lower)
            }
        }
    }
}
