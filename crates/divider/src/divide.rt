// The quotient of two words.
ghost use Rattle.std.specs.Prelude.{◌≡◌, ◌<◌, true, negsuc, Ok, Err};
ghost use Rattle.decimal.specs.Numbers.{datum, finite};
ghost use Rattle.divider.specs.Drafts.{counted, product_sign};
ghost use Rattle.divider.specs.Divisions.{agreement, exactly, finite_quotient, invalid_flag, not_a_number, number_quotient, outcome, over_zero, word_division};

use crate::begin::{begin_finite, multiply_signs};
use crate::nine::NineDigits;
use crate::outcome::{Quotient, QuotientWord};
use crate::pair::Pair;
use decimal::{Finite, Nan, Number};
use reciprocal::Source;
use refusals::Fault;
use rounding::{Flags, Mode, Sign};

fn raised_invalid() -> Flags
    ensures { result ≡ invalid_flag }
{
    Flags {
        invalid: true,
        ..Flags::none()
    }
}

// What is no number, with the flags.
fn no_number(flags: Flags) -> Quotient
    ensures { outcome result ≡ not_a_number flags }
{
    let nan = Nan {
        sign: Sign::Plus,
        payload: 0,
    };
    Quotient {
        number: Number::QuietNan(nan),
        flags,
    }
}

// A quotient that is a number, exactly.
fn exact(number: Number) -> Quotient
    ensures { outcome result ≡ exactly (datum number) }
{
    Quotient {
        number,
        flags: Flags::none(),
    }
}

// A finite number over an infinity.
fn vanishing(sign: Sign) -> Quotient
    ensures { outcome result ≡ exactly (finite sign 0 (negsuc 100)) }
{
    exact(Number::Finite(Finite {
        sign,
        coefficient: 0,
        exponent: -101,
    }))
}

// A finite number over a zero.
fn quotient_by_zero(sign: Sign, coefficient: u32) -> Quotient
    ensures { outcome result ≡ over_zero sign coefficient }
{
    if coefficient == 0 {
        return no_number(raised_invalid());
    }
    Quotient {
        number: Number::Infinite(sign),
        flags: Flags {
            division_by_zero: true,
            ..Flags::none()
        },
    }
}

// The quotient of two finite numbers.
fn divide_finite<S: Source>(source: &NineDigits<S>, mode: Mode, y: Finite, x: Finite) -> Quotient
    ensures { outcome result ≡ finite_quotient mode (product_sign y.sign x.sign) y.coefficient (counted y.exponent) x.coefficient (counted x.exponent) }
{
    if x.coefficient == 0 {
        return quotient_by_zero(multiply_signs(y.sign, x.sign), y.coefficient);
    }
    begin_finite(source, y, x).round(mode)
}

// The quotient of two numbers.
fn divide_numbers<S: Source>(source: &NineDigits<S>, mode: Mode, y: Number, x: Number) -> Quotient
    ensures { outcome result ≡ number_quotient mode (datum y) (datum x) }
{
    match (y, x) {
        (Number::SignallingNan(_), _) | (_, Number::SignallingNan(_)) => no_number(
            raised_invalid(),
        ),
        (Number::QuietNan(_), _) | (_, Number::QuietNan(_)) => no_number(Flags::none()),
        (Number::Infinite(_), Number::Infinite(_)) => no_number(raised_invalid()),
        (Number::Infinite(sign), Number::Finite(x)) => {
            exact(Number::Infinite(multiply_signs(sign, x.sign)))
        }
        (Number::Finite(y), Number::Infinite(sign)) => vanishing(multiply_signs(y.sign, sign)),
        (Number::Finite(y), Number::Finite(x)) => divide_finite(source, mode, y, x),
    }
}

/// The quotient of two words in a mode, with the exceptions that it raises. Refuses a source that claims under nine, before the words are
/// looked at. The answer is IEEE's: the exact quotient, rounded once; it does not depend on the source.
pub fn divide_words<S: Source>(source: &S, mode: Mode, pair: Pair) -> Result<QuotientWord, Fault>
    ensures { result ≡ word_division (S.Source.claim source.now) mode pair.dividend pair.divisor }
{
    let source = NineDigits::of(source)?;
    let (dividend, divisor) = pair.numbers();
    Ok(divide_numbers(&source, mode, dividend, divisor).into())
}

/// Divides two words by each of two sources, and tells whether word and flags are the same. Where both sources claim nine, they always are:
/// another table of reciprocals does not alter one digit.
pub fn sources_agree<S: Source, T: Source>(
    first: &S,
    second: &T,
    mode: Mode,
    pair: Pair,
) -> Result<bool, Fault>
    ensures { result ≡ agreement (S.Source.claim first.now) (T.Source.claim second.now) }
{
    let one = divide_words(first, mode, pair)?;
    let other = divide_words(second, mode, pair)?;
    Ok(one == other)
}
